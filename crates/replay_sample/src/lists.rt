// Lists lent to a call: list k of the case is read into a list with room for it, which hands back the part that is lent, and a list is held to part k after the call.
use crate::parts::{byte_of, part, split_word, word_of};
use number::{bits_of, float_of};

// What a list in the sample holds.
pub trait Item: Copy {
    // Item i of those that repeat in a part.
    fn item(items: &[u8], i: usize) -> Self;

    // Whether it is item i.
    fn is_item(self, items: &[u8], i: usize) -> bool;
}

impl Item for u8 {
    fn item(items: &[u8], i: usize) -> u8 {
        byte_of(items, i)
    }

    fn is_item(self, items: &[u8], i: usize) -> bool {
        self == byte_of(items, i)
    }
}

impl Item for u64 {
    fn item(items: &[u8], i: usize) -> u64 {
        word_of(items, i)
    }

    fn is_item(self, items: &[u8], i: usize) -> bool {
        self == word_of(items, i)
    }
}

// Numbers of 32 bits are words in the sample.
impl Item for u32 {
    fn item(items: &[u8], i: usize) -> u32 {
        (word_of(items, i) % (1 << 32)) as u32
    }

    fn is_item(self, items: &[u8], i: usize) -> bool {
        u64::from(self) == word_of(items, i)
    }
}

// Any bits are a number.
impl Item for f64 {
    fn item(items: &[u8], i: usize) -> f64 {
        float_of(word_of(items, i))
    }

    fn is_item(self, items: &[u8], i: usize) -> bool {
        bits_of(self) == word_of(items, i)
    }
}

// A list in the sample is a part that begins with how many are lent. Then come the items, which repeat: so a long list of one item is short here.
pub fn read<'a, T: Item>(case: &[u8], k: usize, room: &'a mut [T]) -> &'a mut [T] {
    let (lent, items) = split_word(part(case, k));
    let n = lent.min(room.len() as u64) as usize;
    let list = &mut room[..n];
    for (i, item) in list.iter_mut().enumerate() {
        *item = T::item(items, i);
    }
    list
}

pub fn same<T: Item>(case: &[u8], k: usize, list: &[T]) -> bool {
    let items = part(case, k);
    list.iter()
        .enumerate()
        .all(|(i, item)| item.is_item(items, i))
}
