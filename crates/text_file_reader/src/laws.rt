//! Laws of the definitions, each the contract of a function that does nothing.

ghost use Rattle.std.specs.Prelude.{◌≡◌, ◌≤◌, ℕ, List, [], ◌∷◌, ◌++◌, true, Some, None, length};
ghost use Rattle.std.specs.List.{list_all, prefix_len};
ghost use Rattle.txn_programs.specs.Listing.{Listing};
ghost use Rattle.text_words.specs.Bytes.{is_allowed, is_atom_byte, is_in_line};
ghost use Rattle.text_words.specs.Tokens.{Lexeme, atom, tokens};
ghost use Rattle.text_grammar.specs.Tree.{longest};
ghost use Rattle.text_grammar.specs.Spelling.{Spells, first_fault};
ghost use Rattle.text_file_reader.specs.Faults.{IsFirst};
ghost use Rattle.text_file_reader.specs.Gaps.{IsGap, SplitsNoToken, Division, ReadsAs};
ghost use Rattle.text_words.specs.declared.fault.ReadFault.{ReadFault};

/// The same bytes spell one catalogue at most.
pub fn spells_one()
    ensures { (bytes : List ℕ) (l m : Listing) → Spells bytes l → Spells bytes m → l ≡ m }
{}

/// There is a fault exactly where no catalogue is spelt.
pub fn faults_where_none_is_spelled()
    ensures spelled { (bytes : List ℕ) (l : Listing) → Spells bytes l → first_fault bytes ≡ None }
    ensures faultless { (bytes : List ℕ) → first_fault bytes ≡ None → (l : Listing) × Spells bytes l }
{}

/// The fault is the first that applies, by what each kind says of the bytes.
pub fn faults_are_first()
    ensures { (bytes : List ℕ) (e : ReadFault) → first_fault bytes ≡ Some e → IsFirst bytes e }
{}

/// An atom is a token of its own, wherever a blank, a parenthesis, a comment or the end follows it.
pub fn atoms_stand_apart()
    ensures { (b : ℕ) (bs rest : List ℕ) → list_all is_atom_byte (b ∷ bs) ≡ true → prefix_len is_atom_byte rest ≡ 0
        → tokens ((b ∷ bs) ++ rest) ≡ atom (b ∷ bs) ∷ tokens rest }
{}

/// Nothing but its tokens matters of a file that is short enough and has only bytes that are allowed.
pub fn tokens_are_all()
    ensures { (bytes others : List ℕ) → tokens bytes ≡ tokens others
        → list_all is_allowed bytes ≡ list_all is_allowed others
        → length bytes ≤ longest bytes → length others ≤ longest others → ReadsAs bytes others }
{}

/// A blank or a comment between two tokens changes nothing, wherever in a file it is added.
pub fn gaps_are_nothing()
    // The tokens stay, wherever the place splits none of them.
    ensures tokens { (a gap b : List ℕ) → IsGap gap → SplitsNoToken a b → tokens (a ++ (gap ++ b)) ≡ tokens (a ++ b) }
    // So does what the file says, unless the gap makes it too long.
    ensures file { (a gap b : List ℕ) → IsGap gap → SplitsNoToken a b → list_all is_allowed gap ≡ true
        → length (a ++ (gap ++ b)) ≤ longest (a ++ (gap ++ b)) → ReadsAs (a ++ (gap ++ b)) (a ++ b) }
    // There is such a place between any two tokens: wherever the tokens are divided, the bytes can be.
    ensures places { (bytes : List ℕ) (front back : List Lexeme) → tokens bytes ≡ front ++ back
        → Division bytes front back }
{}

/// A comment before a newline, or at the end of the file, changes nothing, whatever stands before it.
pub fn comments_end_with_lines()
    ensures line { (a text b : List ℕ) → list_all is_in_line text ≡ true
        → tokens (a ++ (59 ∷ (text ++ 10 ∷ b))) ≡ tokens (a ++ 10 ∷ b) }
    ensures file { (a text : List ℕ) → list_all is_in_line text ≡ true → tokens (a ++ 59 ∷ text) ≡ tokens a }
{}
