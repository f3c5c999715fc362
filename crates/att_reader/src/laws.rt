//! The laws of function text.
ghost use Rattle.std.specs.Prelude.{◌≡◌, ◌⊎◌, ℕ, List};
ghost use Rattle.insn_table.specs.declared.insn.Function.{Function};
ghost use Rattle.text_lines.specs.declared.refusal.ReadKind.TheVariants.{Memory};
ghost use Rattle.text_lines.specs.declared.refusal.ReadRefusal.{ReadRefusal};
ghost use Rattle.att_reader.specs.FunctionText.{IsFunctionText, IsFunctionRefusal};

/// A law: a text spells exactly one function of a name or is refused in exactly one way, and not both. No
/// text is refused because memory was not found.
pub fn texts_have_one_meaning()
    ensures some { (text name : List ℕ) → ((f : Function) × IsFunctionText text name f)
        ⊎ ((e : ReadRefusal) × IsFunctionRefusal text name e) }
    ensures function { (text name : List ℕ) (f g : Function)
        → IsFunctionText text name f → IsFunctionText text name g → f ≡ g }
    ensures not_both { (text name : List ℕ) (f : Function) (e : ReadRefusal)
        → IsFunctionText text name f → IsFunctionRefusal text name e → ⊥ }
    ensures refusal { (text name : List ℕ) (a b : ReadRefusal)
        → IsFunctionRefusal text name a → IsFunctionRefusal text name b → a ≡ b }
    ensures not_memory { (text name : List ℕ) (e : ReadRefusal)
        → IsFunctionRefusal text name e → e.kind ≡ Memory → ⊥ }
{}
