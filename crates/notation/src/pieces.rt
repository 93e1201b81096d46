// The next piece of a text, where one has to come.
ghost use Rattle.std.specs.Prelude.{◌≡◌, ◌<◌, ◌≤◌, IfOk, length};
ghost use Rattle.notation.specs.Machine.{wrong};
ghost use Rattle.notation.specs.Taking.{TookPieceOrEnds, TookClassOrNone};

use recipe::Refusal;
use tokens::{Class, Piece, Words};

// The refusal of a piece that cannot stand where it does.
pub(crate) fn wrong(piece: Piece) -> Refusal
    ensures { result ≡ wrong piece.class piece.start }
{
    let offset = piece.start;
    if piece.class == Class::Unknown {
        Refusal::UnknownWord { offset }
    } else {
        Refusal::Misplaced { offset }
    }
}

// The next piece, where the text must not end.
pub(crate) fn next_piece(words: &mut Words) -> Result<Piece, Refusal>
    ensures text { words.new.text ≡ words.old.text }
    ensures fewer { IfOk result (λ piece. length words.new.left < length words.old.left) }
    ensures taken { TookPieceOrEnds words.old.text words.old.left words.new.left result }
{
    words.next().ok_or(Refusal::Unfinished {
        offset: words.text().len(),
    })
}

// The next piece, where one of the class must come.
pub(crate) fn expect(class: Class, words: &mut Words) -> Result<Piece, Refusal>
    ensures text { words.new.text ≡ words.old.text }
    ensures fewer { IfOk result (λ piece. length words.new.left < length words.old.left) }
    ensures taken { TookClassOrNone class words.old.text words.old.left words.new.left result }
{
    let piece = next_piece(words)?;
    if piece.class != class {
        return Err(wrong(piece));
    }
    Ok(piece)
}
