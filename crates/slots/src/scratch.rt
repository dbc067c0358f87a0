// The map of the scratch, in words: the walk's list, the marks, and what a call keeps beside a walk.
use super::limits::BEAM;

// Two words for each candidate of the list.
pub const LIST_WORDS: usize = 2 * BEAM as usize;

// The marks begin behind the list: room for one word for each slot, of which a walk uses the first sixteenth.
pub const MARKS: usize = LIST_WORDS;

pub const WORK_WORDS: usize = 167936;
