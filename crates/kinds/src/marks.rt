// The marked numbers of a list of marks, in rising order. Marks are flags by number: `Automaton` says why.
ghost use Rattle.std.specs.Prelude.{◌≡◌, ◌≤◌, false, length, count_by, slice_index_or};
ghost use Rattle.std.specs.List.{slice_get, range_with_len};
ghost use Rattle.kinds.specs.Passing.{marked_below};

// How many numbers below n are marked.
pub(crate) fn marked_count(marks: &[bool], n: u8) -> usize
    requires { n ≤ length marks.now }
    ensures { result ≡ count_by (λ q. slice_index_or marks.now q false) (range_with_len 0 n) }
{
    (0..n).filter(|number| marks[*number as usize]).count()
}

// The marked number below n at a place; none past the end.
pub(crate) fn marked_at(marks: &[bool], n: u8, place: usize) -> Option<u8>
    requires { n ≤ length marks.now }
    ensures { result ≡ slice_get (marked_below marks.now n) place }
{
    (0..n).filter(|number| marks[*number as usize]).nth(place)
}
