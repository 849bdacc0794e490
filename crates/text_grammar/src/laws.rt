//! Laws of the definitions, each the contract of a function that does nothing.

ghost use Rattle.std.specs.Prelude.{◌≡◌, pos, codes, true, false, [], ◌∷◌};
ghost use Rattle.text_grammar.specs.Tree.{Number, Parameter, Stmt, Skip};
ghost use Rattle.text_grammar.specs.Calls.{Given, txs_calls_known, stmt_given, stmt_plain, txs_plain};
ghost use Rattle.text_grammar.specs.Calls.{stmt_nodes, txs_called_nodes};
ghost use Rattle.text_grammar.specs.WorkedCalls.{up, two, two_plain, three, three_body, tx, calls};

/// Calls worked out by hand. A call stands for the body that it calls, with its arguments for the parameters, also if
/// that body was made of calls. It calls a transaction that stands before it alone, gives as many arguments as that has
/// parameters, and names parameters of its own transaction alone.
pub fn worked_calls()
    ensures known { txs_calls_known [] (up ∷ two ∷ three ∷ []) ≡ true }
    ensures plain { txs_plain [] (up ∷ two ∷ []) ≡ up ∷ two_plain ∷ [] }
    ensures of_calls { stmt_plain (up ∷ two_plain ∷ []) three.body ≡ three_body }
    ensures nodes { txs_called_nodes [] (up ∷ two ∷ three ∷ []) ≡ 21 }
    ensures arguments { txs_calls_known (up ∷ two ∷ [])
        (calls (codes "two") (Number (pos 1) ∷ Number (pos 2) ∷ []) ∷ []) ≡ false }
    ensures itself { txs_calls_known (up ∷ two ∷ []) (calls (codes "t") [] ∷ []) ≡ false }
    ensures later { txs_calls_known (up ∷ two ∷ []) (calls (codes "later") [] ∷ tx (codes "later") Skip ∷ []) ≡ false }
    ensures variable { txs_calls_known (up ∷ two ∷ []) (calls (codes "up") (Parameter (codes "x") ∷ []) ∷ []) ≡ false }
{}

/// A body has as many nodes with arguments for its parameters as it has with these.
#[tactic(auto, using(crate::proofs::Calls::stmt_nodes_given))]
pub fn arguments_are_one_node()
    ensures { (g : Given) (s : Stmt) → stmt_nodes (stmt_given g s) ≡ stmt_nodes s }
{}
