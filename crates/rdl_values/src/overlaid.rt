//! What the values at a use are made of.

ghost use Rattle.std.specs.Prelude.{◌≡◌, ℕ, List, [], ◌∷◌, ◌++◌, true, false, Option, None, Some, Ok, bytes_eq, is_some, map, option_and_then, ◌+◌, ◌<◌, ◌≤◌, Err, length, slice_get, take};
ghost use Rattle.std.specs.List.{AllByRecursion, list_any};
ghost use Rattle.rdl_base.specs.declared.fault.Fault.{Fault};
ghost use Rattle.rdl_base.specs.declared.rule.Rule.TheVariants as rules;
ghost use Rattle.rdl_tree.specs.declared.expr.Expr.{Expr};
ghost use Rattle.rdl_tree.specs.declared.item.Param.{Param};
ghost use Rattle.rdl_values.specs.Bodies.{Closure, Scope, around};
ghost use Rattle.rdl_values.specs.Parameters.{Bound, argument, bound_from, bound_of, is_bound, typed, value_at};
ghost use Rattle.rdl_values.specs.Uses.{Use};
ghost use Rattle.rdl_values.specs.Values.{Around, Val, entry_named, fails, value_of};
ghost use Rattle.rdl_values.specs.Overlaid.{AreApart, ArePassed, HasTouched, HasThese, IsBelow, IsPassed, IsUntouched, IsWalked, Plain, names_in, names_of, overlaid, plain_by, plain_of, plain_value, stands_before, value_over};

/// A value stays the same where further names stand for something, and what it names for the same. So does that of a default which has one
/// by some of the parameters before it, with the values that they have at a use.
pub fn values_grow()
    ensures grow { (these those : Around) → IsBelow these those → (e : Expr) (v : Val) → value_of these e ≡ Ok v → value_of those e ≡ Ok v }
    ensures nothing { (those : Around) (e : Expr) (v : Val) → value_of [] e ≡ Ok v → value_of those e ≡ Ok v }
    ensures read_ { (reads bound : Bound) (outer : Around) (p : Param) (e : Expr) (v : Val) → HasThese reads bound (names_in e)
        → typed ((record { bound = reads; enums = [] }) ∷ []) p e ≡ Ok v → typed ((record { bound = bound; enums = [] }) ∷ outer) p e ≡ Ok v }
    ensures untouched { (u : Use) (scope : Scope) (reads bound : Bound) (p : Param) (v : Val) → is_bound p.name bound ≡ false → argument u.args p.name ≡ None → HasThese reads bound (names_of p.default)
        → plain_value reads p ≡ Some v → value_at u scope bound p ≡ Ok v }
{}

/// The values of a use are those of the text with the touched ones put over them.
pub fn values_are_overlaid()
    ensures { (u : Use) (c : Closure) (bound touched : Bound) → bound_of u c ≡ Ok bound → HasTouched u.args c.def.params.now bound touched → bound ≡ overlaid (plain_of c.def.params.now) touched }
{}

/// A name stands for what is put over the parameter, or else for what the text has.
pub fn look_ups_are_overlaid()
    ensures { (plain : Plain) (touched : Bound) (n : List ℕ) → AreApart plain → entry_named n (overlaid plain touched) ≡ option_and_then (λ o. value_over touched (n, o)) (entry_named n plain) }
{}

/// The touched parameters of a use decide: those between them are passed over, a touched one that has a value is put over the text's, and
/// one whose name stands before fails E6.
pub fn touched_decide()
    ensures passed { (u : Use) (scope : Scope) (xs : List (Param × Option Val)) (before : Plain) (touched : Bound) (ps : List Param) → ArePassed u scope touched before xs
        → bound_from u scope (overlaid before touched) (map (λ x. x.0) xs ++ ps) ≡ bound_from u scope (overlaid (before ++ plain_by xs) touched) ps }
    ensures put { (u : Use) (scope : Scope) (before : Plain) (touched : Bound) (p : Param) (o : Option Val) (ps : List Param) (v : Val)
        → list_any (λ x. bytes_eq x.0 p.name.text.now) before ≡ false → is_bound p.name touched ≡ false → value_at u scope (overlaid before touched) p ≡ Ok v
        → bound_from u scope (overlaid before touched) (p ∷ ps) ≡ bound_from u scope (overlaid (before ++ ((p.name.text.now, o) ∷ [])) (touched ++ ((p.name.text.now, v) ∷ []))) ps }
    ensures twice { (u : Use) (scope : Scope) (before : Plain) (touched : Bound) (p : Param) (ps : List Param) → AllByRecursion (λ x. is_some (value_over touched x) ≡ true) before
        → list_any (λ x. bytes_eq x.0 p.name.text.now) before ≡ true → bound_from u scope (overlaid before touched) (p ∷ ps) ≡ fails rules.E6 p.name.place }
{}

/// A parameter is passed over that has no argument and nothing put over it, and whose default has a value by the parameters before it of
/// which those that it names have the same here; or whose default names parameters alone that have the values here with which it was
/// evaluated before.
pub fn untouched_are_passed()
    ensures plain { (u : Use) (scope : Scope) (before : Plain) (touched : Bound) (p : Param) (v : Val) → list_any (λ x. bytes_eq x.0 p.name.text.now) before ≡ false → argument u.args p.name ≡ None
        → entry_named p.name.text.now touched ≡ None → HasThese (overlaid before []) (overlaid before touched) (names_of p.default) → plain_value (overlaid before []) p ≡ Some v → IsPassed u scope (overlaid before touched) touched p (Some v) }
    ensures read_ { (u : Use) (scope : Scope) (known : Bound) (before : Plain) (touched : Bound) (p : Param) (e : Expr) (v : Val) → list_any (λ x. bytes_eq x.0 p.name.text.now) before ≡ false → argument u.args p.name ≡ None
        → entry_named p.name.text.now touched ≡ None → p.default ≡ Some e → AllByRecursion (λ n. entry_named n.text.now known ≡ entry_named n.text.now (overlaid before touched)) (names_in e)
        → typed ((record { bound = known; enums = [] }) ∷ around scope) p e ≡ Ok v → IsPassed u scope (overlaid before touched) touched p (Some v) }
{}

/// The parameters of a use in order: those that are not touched are passed, each of the others has its value behind those before it, and
/// is put over the text's; one whose name stands before fails E6. So the same one fails first, or all are the text's with the touched ones
/// over them.
pub fn touched_in_order()
    ensures start_ { (u : Use) (scope : Scope) (ps : List Param) → IsWalked u scope ps 0 [] }
    ensures passed { (u : Use) (scope : Scope) (ps : List Param) (from upto : ℕ) (touched : Bound) → AreApart (take upto (plain_of ps)) → from ≤ upto → upto ≤ length ps
        → ((k : ℕ) (p : Param) → from ≤ k → k < upto → slice_get ps k ≡ Some p → IsUntouched u.args ps touched k p) → IsWalked u scope ps from touched → IsWalked u scope ps upto touched }
    ensures put { (u : Use) (scope : Scope) (ps : List Param) (k : ℕ) (p : Param) (touched : Bound) (v : Val) → stands_before (plain_of ps) k p.name.text.now ≡ false → slice_get ps k ≡ Some p
        → value_at u scope (overlaid (take k (plain_of ps)) touched) p ≡ Ok v → IsWalked u scope ps k touched → IsWalked u scope ps (k + 1) (touched ++ ((p.name.text.now, v) ∷ [])) }
    ensures failed { (u : Use) (scope : Scope) (ps : List Param) (k : ℕ) (p : Param) (touched : Bound) (f : Fault) → slice_get ps k ≡ Some p
        → value_at u scope (overlaid (take k (plain_of ps)) touched) p ≡ Err f → IsWalked u scope ps k touched → bound_from u scope [] ps ≡ Err f }
    ensures twice { (u : Use) (scope : Scope) (ps : List Param) (k : ℕ) (p : Param) (touched : Bound) → stands_before (plain_of ps) k p.name.text.now ≡ true → slice_get ps k ≡ Some p
        → IsWalked u scope ps k touched → bound_from u scope [] ps ≡ fails rules.E6 p.name.place }
    ensures end_ { (u : Use) (scope : Scope) (ps : List Param) (k : ℕ) (touched : Bound) → length ps ≤ k → IsWalked u scope ps k touched → bound_from u scope [] ps ≡ Ok (overlaid (plain_of ps) touched) }
{}
