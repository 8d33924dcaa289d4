// The compact form: a request is 40 bytes, an answer 72, both little-endian numbers of 8 bytes each.
use crate::hasher::number_of;
use crate::{Answer, Kind, Request};

// The request; nothing where its number is no kind.
pub fn read(bytes: &[u8; 40]) -> Option<Request> {
    let mut numbers = [0; 5];
    for (number, eight) in numbers.iter_mut().zip(bytes.as_chunks().0) {
        *number = u64::from_le_bytes(*eight);
    }
    let [kind, a, b, c, d] = numbers;
    let kind = Kind::try_from(kind).ok()?;
    Some(Request { kind, a, b, c, d })
}

pub fn write(answer: &Answer) -> [u8; 72] {
    let told = answer.told;
    let numbers = [
        told.said as u64,
        told.first,
        told.second,
        told.third,
        told.looked,
        number_of(answer.hasher),
        answer.live,
        answer.capacity,
        answer.digest.unwrap_or(0),
    ];
    let mut bytes = [0; 72];
    for (eight, number) in bytes.as_chunks_mut().0.iter_mut().zip(&numbers) {
        *eight = number.to_le_bytes();
    }
    bytes
}
