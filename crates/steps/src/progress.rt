// What a faultless step did: it went on; it was not taken, since it would have typed more than there is space for; or it finished the line.
#[derive(Clone, Copy, PartialEq, Eq)]
pub enum Progress {
    Went,
    Full,
    Finished,
}
