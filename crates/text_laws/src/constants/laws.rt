//! The law of constants.

ghost use Rattle.std.specs.Prelude.{ℕ, List};
ghost use Rattle.ob_types.specs.declared.program.Program.{Program};
ghost use Rattle.ob_types.specs.declared.tree.Expr.{Expr};
ghost use Rattle.ob_types.specs.Expressions.{Calls};
ghost use Rattle.ob_types.specs.Meaning.{value};
ghost use Rattle.ob_types.specs.Store.{Here};
ghost use Rattle.ob_types.specs.Table.{Table};
ghost use Rattle.ob_judge.specs.Operands.{fold};
ghost use Rattle.judged_tree.specs.Plain.{plain_expr};
ghost use Rattle.text_laws.specs.constants.Folding.{IsMeant, is_fixed};

/// In any program, table of types and strings: what the judgement folds an expression to is what the expression means.
pub fn constants_are_meant()
    ensures { (p : Program) (calls : Calls) (here : Here) (types : Table) (texts : List (List ℕ)) (x : Expr)
        → IsMeant here.procedure (is_fixed (plain_expr types texts x)) (fold (plain_expr types texts x)) (value p calls here x) }
{}
