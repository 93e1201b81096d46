// Where things stand in a memory.
ghost use Rattle.std.specs.Prelude.{◌≡◌, ◌+◌, ◌*◌, ◌≤◌, length};
ghost use Rattle.sheet.specs.Layout as layout;

// The first word after the told pairs, where the records begin.
pub(crate) const RECORDS_START: usize = 1024;

// The first word after the records.
pub(crate) fn marks_start(size: usize) -> usize
    requires { size ≤ 512 }
    ensures { result ≡ layout.marks_start size }
{
    RECORDS_START + 8 * size
}

// The first word after the marks.
pub(crate) fn forests_start(size: usize) -> usize
    requires { size ≤ 512 }
    ensures { result ≡ layout.forests_start size }
{
    RECORDS_START + 9 * size
}

// How many words the two forests have.
pub(crate) fn forests_length(size: usize, names: usize) -> usize
    requires few_places { size ≤ 512 }
    requires few { names ≤ 64 }
    ensures { result ≡ layout.forests_length size names }
{
    4 * size + 4 * (names * size + 1)
}

// The records, in a memory or in what stands before its forests.
pub(crate) fn records_of(words: &[u32], size: usize) -> &[u32]
    requires few { size ≤ 512 }
    requires room { layout.marks_start size ≤ length words.now }
    ensures records { result.now ≡ layout.records size words.now }
    ensures long { length result.now ≡ 8 * size }
{
    &words[RECORDS_START..marks_start(size)]
}

// The rows of the first copy of the forests, over places and over names.
pub(crate) fn first_rows(memory: &[u32], size: usize, names: usize) -> (&[u32], &[u32])
    requires few_places { size ≤ 512 }
    requires few { names ≤ 64 }
    requires room { layout.forests_start size + layout.forests_length size names ≤ length memory.now }
    ensures places { result.0.now ≡ layout.places_rows size (layout.first_copy size names memory.now) }
    ensures names { result.1.now ≡ layout.names_rows size (layout.first_copy size names memory.now) }
{
    let (_, forests) = memory.split_at(forests_start(size));
    let (first, _) = forests.split_at(forests_length(size, names));
    first.split_at(4 * size)
}
