//! The pieces of a text.

ghost use Rattle.std.specs.Prelude.{◌≡◌, ◌==◌};
ghost use Rattle.std.specs.List.{position};
ghost use Rattle.trace_lines.specs.Pieces.{first_piece, after_piece};

/// What stands before the first byte that parts, and what follows it.
#[tactic(auto, using(crate::proofs::Parts::whole_piece, crate::proofs::Parts::nothing_after, crate::proofs::Parts::piece_at, crate::proofs::Parts::rest_at))]
pub(crate) fn split_first(parting: u8, text: &[u8]) -> (&[u8], &[u8])
    ensures first { result.0.now ≡ first_piece parting text.now }
    ensures after { result.1.now ≡ after_piece parting text.now }
{
    match find_byte(parting, text) {
        Some(place) => (&text[..place], &text[place + 1..]),
        None => (text, &text[text.len()..]),
    }
}

fn find_byte(wanted: u8, text: &[u8]) -> Option<usize>
    ensures { result ≡ position (λ byte. byte == wanted) text.now }
{
    text.iter().position(|byte| *byte == wanted)
}
