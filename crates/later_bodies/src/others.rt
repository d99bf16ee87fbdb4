//! Parts of declarations, where other procedures were judged before.

ghost use Rattle.std.specs.Prelude.{◌≡◌, ℕ, Bool, List, Option, length};
ghost use Rattle.ob_syntax.specs.Syntax.{ConstDecl, Decls, Formals, Procedures, TypeDecl, VarDecl};
ghost use Rattle.ob_syntax.specs.declared.names.Identdef.{Identdef};
ghost use Rattle.ob_judge.specs.Declarations.{const_part, decls_part, heading, procedures_part, types_part, var_part};
ghost use Rattle.ob_judge.specs.Image.{Procedure};
ghost use Rattle.ob_judge.specs.Judged.{Keeps};
ghost use Rattle.ob_judge.specs.Making.{Making};
ghost use Rattle.ob_judge.specs.Parameters.{Listed, stand};
ghost use Rattle.ob_judge.specs.Scopes.{Source};
ghost use Rattle.ob_judge.specs.Shapes.{Shape};
ghost use Rattle.judged_modules.specs.steps.Procedures.{OneProcedure};
ghost use Rattle.judged_modules.specs.steps.Steps.{procedure_part};
ghost use Rattle.later_bodies.specs.Beside.{AddedBeside, PutOffBeside, SameBeside};
ghost use Rattle.later_bodies.specs.Waiting.{Waiting, put_off};

/// Names stand alike whichever procedures there are, and leave these as they were;
pub fn names_stand_beside_others()
    ensures { (p : Source) (names : List ℕ) (s t : Making) (ys : List Procedure)
        → stand p names s ≡ Keeps (tt, t) → SameBeside (stand p names) s ys tt t }
{}

/// so are constants,
pub fn constants_are_judged_beside_others()
    ensures { (p : Source) (d : ConstDecl) (s t : Making) (ys : List Procedure)
        → const_part p d s ≡ Keeps (tt, t) → SameBeside (const_part p d) s ys tt t }
{}

/// a TYPE part,
pub fn types_are_judged_beside_others()
    ensures { (p : Source) (ds : List TypeDecl) (s t : Making) (ys : List Procedure)
        → types_part p ds s ≡ Keeps (tt, t) → SameBeside (types_part p ds) s ys tt t }
{}

/// variables,
pub fn variables_are_judged_beside_others()
    ensures { (p : Source) (d : VarDecl) (s t : Making) (ys : List Procedure)
        → var_part p d s ≡ Keeps (tt, t) → SameBeside (var_part p d) s ys tt t }
{}

/// and a heading, judged.
pub fn headings_are_judged_beside_others()
    ensures { (p : Source) (f : ℕ) (name : Identdef) (x : Option Formals) (is_local : Bool) (h : Listed × Shape) (s t : Making) (ys : List Procedure)
        → heading p f name x is_local s ≡ Keeps (h, t) → SameBeside (heading p f name x is_local) s ys h t }
{}

/// All declarations of a scope add the same procedures, whichever others there are, if there are as many;
pub fn declarations_are_judged_beside_others()
    ensures { (p : Source) (d : Decls) (s t : Making) (ys : List Procedure)
        → length ys ≡ length s.procedures → decls_part p d s ≡ Keeps (tt, t) → AddedBeside (decls_part p d) s ys tt t }
{}

/// so does a procedure,
pub fn procedures_are_judged_beside_others()
    ensures { (p : Source) (q : OneProcedure) (s t : Making) (ys : List Procedure)
        → length ys ≡ length s.procedures → procedure_part p q s ≡ Keeps (tt, t) → AddedBeside (procedure_part p q) s ys tt t }
{}

/// and so do procedures one after the other.
pub fn all_procedures_are_judged_beside_others()
    ensures { (p : Source) (x : Procedures) (s t : Making) (ys : List Procedure)
        → length ys ≡ length s.procedures → procedures_part p x s ≡ Keeps (tt, t) → AddedBeside (procedures_part p x) s ys tt t }
{}

/// A procedure is put off alike, whichever others there are, if there are as many.
pub fn procedures_are_put_off_beside_others()
    ensures { (p : Source) (q : OneProcedure) (s : Making) (w : Waiting) (ys : List Procedure)
        → length ys ≡ length s.procedures → put_off p q s ≡ Keeps w → PutOffBeside p q s ys w }
{}
