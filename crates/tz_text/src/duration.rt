//! An amount of time with the letter behind it.
/// An amount of time: seconds, and the letter behind it in lower case, or 0 where there is none.
#[derive(Clone, Copy, Debug, PartialEq, Eq, Hash)]
pub struct Amount {
    pub seconds: i64,
    pub suffix: u8,
}
