//! Keys of names: two names are the same where their keys are.

ghost use Rattle.std.specs.Prelude.{◌≡◌, ◌≤◌, ◌⊎◌, ℕ, List, [], ◌∷◌, length, nat_eq};
ghost use Rattle.std.proofs.Common.{ap};
ghost use Rattle.std.specs.Cmp.{partial_equiv_from_equiv};
ghost use Rattle.std.specs.Cmp.Lexicographic.{bytes_decides, nat_list_eq_equiv, pointwise};
ghost use Rattle.ztext.specs.Text as text;
ghost use Rattle.checker_values.specs.Names as spec;

use std::hash::{Hash, Hasher};
use std::marker::Model;

/// A name in lower case, with zeros after it. A name has at most 32 bytes.
#[derive(Drop)]
pub struct Key {
    bytes: [u8; 32],
}

impl Model for Key {
    ghost Value = { List ℕ };

    ghost view = { λ k. k.bytes };
}

impl PartialEq for Key {
    ghost eq = { pointwise nat_eq };

    ghost laws = { partial_equiv_from_equiv nat_list_eq_equiv };

    fn eq(&self, other: &Key) -> bool {
        self.bytes == other.bytes
    }
}

impl Eq for Key {
    ghost laws = { nat_list_eq_equiv };
}

// The bytes are one write: an array writes each of its bytes, and their number, by itself.
impl Hash for Key {
    ghost hash_input = { λ key. key ∷ [] };

    ghost respects_eq = { λ a b same. ap (λ key. key ∷ []) ((bytes_decides a b).0 same) };

    fn hash<H: Hasher>(&self, state: &mut H) {
        state.write(&self.bytes);
    }
}

fn lower_case(byte: u8) -> u8
    ensures { result ≡ text.lower_case byte }
{
    if byte >= b'A' && byte <= b'Z' {
        byte + 32
    } else {
        byte
    }
}

/// How many bytes of a name its key holds.
fn key_length(name: &[u8]) -> usize
    ensures few { result ≤ 32 }
    ensures all { (result ≡ 32) ⊎ (result ≡ length name.now) }
    ensures there { result ≤ length name.now }
{
    if name.len() < 32 { name.len() } else { 32 }
}

/// The key of a name.
#[tactic(auto, using(crate::proofs::Keys::fill_step, crate::proofs::Keys::key_filled))]
pub fn key_of(name: &[u8]) -> Key
    ensures { result ≡ spec.key_of name.now }
{
    let mut key = [0; 32];
    for i in 0..key_length(name) {
        key[i] = lower_case(name[i]);
    }
    Key { bytes: key }
}
