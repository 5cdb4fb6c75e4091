// The version table. `prev` gives the word as it is, 0 for none: the layout and the definition fix it. An accessor gives its word a
// name and no more, and asks that its version has room: an index of a type of its own would be made anew of each word read.
#![tactic(auto, unfolding(model::specs::Layout::field))]

ghost use Rattle.std.specs.Prelude.{◌≡◌, ◌+◌, false, leb, length};
ghost use Rattle.model.specs.Layout.{version_words, capacity, value, timestamp, prev, version_at, with_version};
ghost use Rattle.tables.specs.Room.{VersionRoom};

use model::types::{State, Version, VersionOffsets};
use tables::records::{is_full, set_word, word_at};

// `State::VERSION_WORDS`, to reckon an index with.
const VERSION_WORDS: usize = State::VERSION_WORDS as usize;

pub fn value_at(versions: &[u32], version: u32) -> u32
    requires { VersionRoom versions.now version }
    ensures { result ≡ value versions.now version }
{
    word_at::<VERSION_WORDS>(versions, version, VersionOffsets::VALUE)
}

pub fn timestamp_at(versions: &[u32], version: u32) -> u32
    requires { VersionRoom versions.now version }
    ensures { result ≡ timestamp versions.now version }
{
    word_at::<VERSION_WORDS>(versions, version, VersionOffsets::TIMESTAMP)
}

pub fn prev_at(versions: &[u32], version: u32) -> u32
    requires { VersionRoom versions.now version }
    ensures { result ≡ prev versions.now version }
{
    word_at::<VERSION_WORDS>(versions, version, VersionOffsets::PREV)
}

pub fn version_at(versions: &[u32], version: u32) -> Version
    requires { VersionRoom versions.now version }
    ensures { result ≡ version_at versions.now version }
{
    let value = value_at(versions, version);
    let timestamp = timestamp_at(versions, version);
    Version { value, timestamp }
}

// A new version. Value and timestamp stay two, as a call has them: a `Version` would be made to be taken apart here.
#[tactic(auto, unfolding(model::specs::Layout::with_version))]
pub fn write_version(versions: &mut [u32], version: u32, value: u32, timestamp: u32, prev: u32)
    requires { VersionRoom versions.old version }
    ensures { versions.new ≡ with_version versions.old version (record { value = value; timestamp = timestamp }) prev }
{
    set_word::<VERSION_WORDS>(versions, version, VersionOffsets::VALUE, value);
    set_word::<VERSION_WORDS>(versions, version, VersionOffsets::TIMESTAMP, timestamp);
    set_word::<VERSION_WORDS>(versions, version, VersionOffsets::PREV, prev);
}

// Whether the table has no room for a version after the last one in use.
pub fn versions_full(versions: &[u32], used: u32) -> bool
    requires { VersionRoom versions.now used }
    ensures full { result ≡ leb (capacity version_words (length versions.now)) used }
    ensures room { result ≡ false → VersionRoom versions.now (used + 1) }
{
    is_full::<VERSION_WORDS>(versions, used)
}
