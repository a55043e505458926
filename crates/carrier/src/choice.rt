// Which of the strings that wait a fetch hands out.

// 1 names the oldest. 0 or a number larger than there are strings names none. A string that stays can be handed out again.
#[derive(Clone, Copy)]
pub struct Choice {
    pub number: usize,
    pub stays: bool,
}

// Each string once, in the order in which they were put.
pub(crate) const OLDEST: Choice = Choice {
    number: 1,
    stays: false,
};
