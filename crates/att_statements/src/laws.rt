//! The law of the reader of statements.
ghost use Rattle.std.specs.Prelude.{ℕ, List, Option};
ghost use Rattle.text_lines.specs.Statements.{Reads};
ghost use Rattle.att_statements.specs.Statements.{LeadsTo, IsBadStatement, IsInsnText};
ghost use Rattle.att_statements.specs.ReadingStatements.{statement_of};

/// A law: whatever the places of labels, what `statement` answers is right. It finds the instruction
/// exactly where the text is that of one, and each refusal is the first kind of fault that the text has.
#[tactic(auto, using(crate::proofs::StatementTexts::reader))]
pub fn statements_are_read()
    ensures { (target : List ℕ → Option ℕ)
        → Reads (statement_of target) (IsBadStatement (LeadsTo target)) (IsInsnText (LeadsTo target)) }
{}
