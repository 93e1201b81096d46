// What the tokens of a text are: this function does nothing, and its contract is the theorem.
ghost use Rattle.std.specs.Prelude.{ℕ, List};
ghost use Rattle.tokens.specs.Covering.{TokensExact};

// Exactly one list of tokens covers a text: its tokens. The text ('() a'b) is covered by an opening parenthesis, nil, the
// word a'b, which is of no class, and a closing parenthesis. It is not covered where the word is cut into a and 'b, where nil
// is cut into an apostrophe and two parentheses, or where an offset is one higher.
pub fn tokens_are_exact()
    ensures { (text : List ℕ) → TokensExact text }
{}
