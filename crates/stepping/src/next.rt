// What a step has still to do: to execute a token, or nothing.
#[derive(Clone, Copy)]
pub(crate) enum Next {
    Execute(u16),
    Went,
    Finished,
}
