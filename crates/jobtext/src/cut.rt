// Text cut at the first byte that passes a test.
ghost use Rattle.std.specs.Prelude.{◌≡◌, ℕ, Bool};
ghost use Rattle.jobtext.specs.Cut.{Answers, after_piece, first_piece};

/// The text before the first byte that passes a test, and the text behind that byte.
#[derive(Clone, Copy)]
pub(crate) struct Cut<'a> {
    pub(crate) piece: &'a [u8],
    pub(crate) rest: &'a [u8],
}

/// Cuts a text at the first byte that passes a test. Without such a byte the piece is the whole text, and the rest is empty.
pub(crate) fn cut_at<F: Fn(u8) -> bool>(text: &[u8], stops: F) -> Cut<'_>
    requires { F.IsAlwaysCallable stops }
    ensures { (test : ℕ → Bool) → Answers (F.post stops) test → (result.piece.now ≡ first_piece test text.now) × (result.rest.now ≡ after_piece test text.now) }
{
    match text.iter().position(|byte| stops(*byte)) {
        Some(place) => Cut {
            piece: &text[..place],
            rest: &text[place + 1..],
        },
        None => Cut {
            piece: text,
            rest: &[],
        },
    }
}
