// The arguments of a program, each a type or an int in decimal digits.
ghost use Rattle.std.specs.Prelude.{◌≡◌};
ghost use Rattle.rule_text.specs.Arguments.{are_digits, up_to, is_int, type_in, int_in};

// Whether all characters are decimal digits.
fn are_digits(text: &[u8]) -> bool
    ensures { result ≡ are_digits text.now }
{
    text.iter().all(|b| b.is_ascii_digit())
}

// Whether a text is a number up to most, in at most ten digits.
#[tactic(auto, unfolding(crate::specs::Arguments::up_to))]
fn up_to(text: &[u8], most: usize) -> bool
    ensures { result ≡ up_to most text.now }
{
    1 <= text.len() && text.len() <= 10 && are_digits(text) && replay_text::number(text) <= most
}

// Whether a text is an int: the least one is one further from 0 than the greatest.
fn is_int(text: &[u8]) -> bool
    ensures { result ≡ is_int text.now }
{
    match text {
        [b'-', digits @ ..] => up_to(digits, 2147483648),
        _ => up_to(text, 2147483647),
    }
}

// The type that a word names: 0 to 65,535.
pub fn type_of(text: &[u8]) -> Option<u16>
    ensures { result ≡ type_in text.now }
{
    if up_to(text, 65535) {
        Some(replay_text::number(text) as u16)
    } else {
        None
    }
}

// The int of a word.
pub fn int_of(text: &[u8]) -> Option<i32>
    ensures { result ≡ int_in text.now }
{
    if is_int(text) {
        Some(replay_text::int(text))
    } else {
        None
    }
}
