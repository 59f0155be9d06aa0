// A room is full of marks before a call, 165 in each byte of the first four; after it the room begins with the answer, and the marks
// behind that stand. For the programs that run vectors: rooms that are longer than asked, just long enough and one number short.
#![tactic(auto)]

// A number that a room can hold, and its mark.
pub trait Mark: Copy + PartialEq {
    const MARK: Self;
}

impl Mark for u8 {
    const MARK: u8 = 165;
}

impl Mark for u32 {
    const MARK: u32 = 0xa5a5_a5a5;
}

impl Mark for usize {
    const MARK: usize = 0xa5a5_a5a5;
}

impl Mark for i64 {
    const MARK: i64 = 0xa5a5_a5a5;
}

// Whether a room holds an answer and marks behind it.
pub fn holds<T: Mark>(room: &[T], answer: &[T]) -> bool {
    room.strip_prefix(answer)
        .is_some_and(|behind| behind.iter().all(|x| *x == T::MARK))
}
