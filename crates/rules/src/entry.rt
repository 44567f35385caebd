// An entry of the list of waiting flows, with the flow's excess.
#[derive(Clone, Copy, Debug, Default, PartialEq, Eq)]
pub struct Entry {
    pub flow: usize,
    pub excess: u64,
}
