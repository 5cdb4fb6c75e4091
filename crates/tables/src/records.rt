// A table of records of so many words each: what the node table and the version table share. The tables are lent words, so records
// are named by index and none is in a Box. An index is reckoned as `word` and `field` are; chunks would divide the table's length
// at each word.
ghost use Rattle.std.specs.Prelude.{◌≡◌, ◌+◌, ◌*◌, ◌<◌, false, get_or, set, leb, length};
ghost use Rattle.model.specs.Layout.{capacity};
ghost use Rattle.tables.specs.Room.{RecordRoom};

// A word of a record.
pub fn word_at<const WORDS: usize>(table: &[u32], index: u32, word: usize) -> u32
    requires room { RecordRoom WORDS table.now index }
    requires word { word < WORDS }
    ensures { result ≡ get_or table.now (WORDS * index + word) 0 }
{
    table[WORDS * index as usize + word]
}

pub fn set_word<const WORDS: usize>(table: &mut [u32], index: u32, word: usize, to: u32)
    requires room { RecordRoom WORDS table.old index }
    requires word { word < WORDS }
    ensures { table.new ≡ set table.old (WORDS * index + word) to }
{
    let at = WORDS * index as usize + word;
    table[at] = to;
}

// Whether the table has no room for a record after the last one in use.
#[tactic(auto, unfolding(model::specs::Layout::capacity))]
pub fn is_full<const WORDS: usize>(table: &[u32], used: u32) -> bool
    requires used { RecordRoom WORDS table.now used }
    requires words { 0 < WORDS }
    ensures full { result ≡ leb (capacity WORDS (length table.now)) used }
    ensures room { result ≡ false → RecordRoom WORDS table.now (used + 1) }
{
    table.len() / WORDS - 1 <= used as usize
}
