//! The canonical text, said a second time: a law, the contract of a function that does nothing.

ghost use Rattle.std.specs.Prelude.{◌≡◌};
ghost use Rattle.text_grammar.specs.Tree.{File, file_tokens};
ghost use Rattle.text_file_printer.specs.Canonical.{text_of};
ghost use Rattle.text_file_printer.specs.Layout.{laid_out};

/// The canonical text of each tree is its tokens, laid out: one form a line, one space between two
/// tokens, but none behind `(` and none before `)`.
pub fn text_is_laid_out()
    ensures { (f : File) → text_of f ≡ laid_out (file_tokens f) }
{}
