// What differs by kind and by answer: the code of model/specs/Roles.antt. A new kind, phase or answer gets its row here.
ghost use Rattle.std.specs.Prelude.{◌≡◌};
ghost use Rattle.model.specs.Numbers.{no_version};
ghost use Rattle.model.specs.Roles.{role_of, plays, class_of, from_put, is_new, version_with};

use model::types::{Answer, Class, Kind, Phase, Role, Version};

pub fn role_of(phase: Phase) -> Role
    ensures { result ≡ role_of phase }
{
    match phase {
        Phase::Walk => Role::Searching,
        Phase::Read => Role::Reading,
        Phase::Seek | Phase::Lock | Phase::Check | Phase::Update | Phase::Make | Phase::Link =>
            Role::Writing,
        Phase::Release => Role::Releasing,
        Phase::Follow => Role::Following,
    }
}

// Whether calls of this kind go through the phases of this role.
pub fn plays(kind: Kind, role: Role) -> bool
    ensures { result ≡ plays kind role }
{
    match role {
        Role::Searching => kind != Kind::Idle,
        Role::Reading => kind == Kind::Get,
        Role::Writing | Role::Releasing => kind == Kind::Put,
        Role::Following => kind == Kind::Scan,
    }
}

fn class_of(answer: Answer) -> Class
    ensures { result ≡ class_of answer }
{
    match answer {
        Answer::TooOld | Answer::VersionsFull | Answer::Added | Answer::KeysFull => Class::OtherPut,
        Answer::New => Class::Inserted,
        Answer::Found => Class::Hit,
        Answer::None => Class::Miss,
        Answer::Swept => Class::Scanned,
    }
}

// The answers that a put gives.
pub fn from_put(answer: Answer) -> bool
    ensures { result ≡ from_put answer }
{
    matches!(class_of(answer), Class::Inserted | Class::OtherPut)
}

pub fn is_new(answer: Answer) -> bool
    ensures { result ≡ is_new answer }
{
    class_of(answer) == Class::Inserted
}

// What goes with the answer of a call that has read no version.
pub fn version_with(answer: Answer, own: Version) -> Version
    ensures { result ≡ version_with answer own no_version }
{
    match class_of(answer) {
        Class::Inserted | Class::OtherPut => own,
        Class::Hit | Class::Miss | Class::Scanned => Version::default(),
    }
}
