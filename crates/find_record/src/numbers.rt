// Any bytes read as numbers, big-endian, and compared. A byte past the end is 0.
ghost use Rattle.std.specs.Prelude.{◌≡◌, ◌+◌, ◌<◌, ◌^◌, get_or};
ghost use Rattle.bits.specs.Format.{is_list};
ghost use Rattle.octets.specs.BigEndian.{num};

#[tactic(auto, using(std::proofs::lemmas::Grind::common_steps))]
pub fn byte(s: &[u8], at: usize) -> u8
    ensures { result ≡ get_or s.now at 0 }
{
    s.get(at).copied().unwrap_or(0)
}

#[tactic(auto, unfolding(octets::specs::BigEndian::num))]
pub fn number_2(s: &[u8], at: usize) -> u16
    requires { at + 1 < 2 ^ 64 }
    ensures { result ≡ num 2 s.now at }
{
    u16::from(byte(s, at)) * 256 + u16::from(byte(s, at + 1))
}

#[tactic(auto, using(crate::proofs::NumberLaws::of_halves))]
pub fn number_4(s: &[u8], at: usize) -> u32
    requires { at + 3 < 2 ^ 64 }
    ensures { result ≡ num 4 s.now at }
{
    u32::from(number_2(s, at)) * 65536 + u32::from(number_2(s, at + 2))
}

// `==` under the definition's name; between a slice and a constant the goal stays open.
pub fn same_bytes(a: &[u8], b: &[u8]) -> bool
    ensures { result ≡ is_list a.now b.now }
{
    a == b
}
