//! Laws of gates. The functions do nothing; their contracts are the laws.
ghost use Rattle.std.specs.Prelude.{◌≡◌, ◌↔◌, ℕ, Bool, true, not, ◌&&◌, ◌||◌, List, map, MatchOption, if◌then◌else◌};
ghost use Rattle.clauses.specs.Assignments.{IsClause, MeetsAll, clause_value, literal_value};
ghost use Rattle.clauses.specs.declared.clause.Lit.{Lit};
ghost use Rattle.clause_gates.specs.Gates.{and_gate, choice_gate, copy_gate, is_odd, majority, majority_gate, not_gate, or_gate, xor_gate};
ghost use Rattle.clause_gates.specs.NormalForms.{normal_clauses, normal_form};

/// The normal form of literals is a clause with their value under each assignment; where there is none, each
/// assignment makes one of them true.
pub fn normal_forms_are_clauses()
    ensures { (lits : List Lit) → MatchOption (normal_form lits) ((v : ℕ → Bool) → clause_value v lits ≡ true)
        (λ c. IsClause c × ((v : ℕ → Bool) → clause_value v c ≡ clause_value v lits)) }
{}

/// An assignment meets clauses exactly where it meets their normal forms.
pub fn normal_forms_keep_what_is_met()
    ensures { (v : ℕ → Bool) (cs : List (List Lit)) → MeetsAll v (normal_clauses cs) ↔ MeetsAll v cs }
{}

/// An assignment meets the clauses of a gate exactly where the output is the connective of the inputs.
pub fn gates_are_their_connectives()
    ensures and { (v : ℕ → Bool) (r a b : Lit) → MeetsAll v (and_gate r a b)
        ↔ (literal_value v r ≡ (literal_value v a && literal_value v b)) }
    ensures or { (v : ℕ → Bool) (r a b : Lit) → MeetsAll v (or_gate r a b)
        ↔ (literal_value v r ≡ (literal_value v a || literal_value v b)) }
    ensures copy { (v : ℕ → Bool) (r a : Lit) → MeetsAll v (copy_gate r a) ↔ (literal_value v r ≡ literal_value v a) }
    ensures not { (v : ℕ → Bool) (r a : Lit) → MeetsAll v (not_gate r a) ↔ (literal_value v r ≡ not (literal_value v a)) }
    ensures xor { (v : ℕ → Bool) (r : Lit) (inputs : List Lit) → MeetsAll v (xor_gate r inputs)
        ↔ (literal_value v r ≡ is_odd (map (literal_value v) inputs)) }
    ensures majority { (v : ℕ → Bool) (m a b c : Lit) → MeetsAll v (majority_gate m a b c)
        ↔ (literal_value v m ≡ majority (literal_value v a) (literal_value v b) (literal_value v c)) }
    ensures choice { (v : ℕ → Bool) (r c a b : Lit) → MeetsAll v (choice_gate r c a b)
        ↔ (literal_value v r ≡ (if literal_value v c then literal_value v a else literal_value v b)) }
{}
