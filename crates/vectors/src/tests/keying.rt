//! Keys, choices and signed octets: values of another program.
mod choice;
mod keys;
mod signed_octets;

// The octets 0, 1, 2 and so on.
fn counted<const N: usize>() -> [u8; N] {
    let mut octets = [0; N];
    for (place, octet) in octets.iter_mut().enumerate() {
        *octet = (place % 256) as u8;
    }
    octets
}
