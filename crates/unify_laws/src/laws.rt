//! The laws of unification and of matching. Each function does nothing: its contract is the law.
ghost use Rattle.std.specs.Prelude.{◌≡◌, ◌≢◌, ◌↔◌, ℕ, ◌<◌, ◌||◌, true, false, List, map, length, Option, Some, None, is_some};
ghost use Rattle.std.specs.FinMap as fin;
ghost use Rattle.std.specs.List.{All, list_any};
ghost use Rattle.std.specs.Ordering.{eq_by_cmp};
ghost use Rattle.fol.specs.declared.symbols.Sym.{Sym as Symbol};
ghost use Rattle.fol.specs.declared.symbols.Var.{Var as Variable};
ghost use Rattle.fol.specs.Formed.{IsFormedTerm};
ghost use Rattle.fol.specs.Order.{var_cmp};
ghost use Rattle.fol.specs.Syntax.{Term, free, bound, app, Terms, nil, cons};
ghost use Rattle.free_variables.specs.Occurrence.{is_free_in_term};
ghost use Rattle.substitution.specs.Image.{image_term, image_terms, IsFormedMap};
ghost use Rattle.substitution.specs.Maps.{Map};
ghost use Rattle.unify_laws.specs.Equations.{Equation, variables_of, is_free_in_equations, AreFormed, Unifies, put_for, replaced};
ghost use Rattle.unify_laws.specs.Unification.{differs, first_difference, by_difference, mgu_within, mgu};
ghost use Rattle.unify_laws.specs.Matching.{IsWithin, match_onto};

/// A most general unifier makes the sides of each equation equal, and the unifiers are exactly the maps that do the same to a term before and
/// after it. It has terms for variables of the equations alone, brings in no others, and leaves what it has given as it is. Its terms are
/// well formed where the equations are.
pub fn most_general_unifiers()
    ensures unifies { (es : List Equation) (m : Map) → mgu es ≡ Some m → Unifies (fin.get m) es }
    ensures general { (es : List Equation) (m : Map) → mgu es ≡ Some m → (h : Variable → Option Term) → Unifies h es ↔ ((t : Term) → image_term h (image_term (fin.get m) t) ≡ image_term h t) }
    ensures bound { (es : List Equation) (m : Map) → mgu es ≡ Some m → (v : Variable) → is_some (fin.get m v) ≡ true → is_free_in_equations v es ≡ true }
    ensures variables { (es : List Equation) (m : Map) → mgu es ≡ Some m → (v : Variable) (t : Term) → is_free_in_term v (image_term (fin.get m) t) ≡ true → (is_free_in_term v t || is_free_in_equations v es) ≡ true }
    ensures idempotent { (es : List Equation) (m : Map) → mgu es ≡ Some m → (t : Term) → image_term (fin.get m) (image_term (fin.get m) t) ≡ image_term (fin.get m) t }
    ensures formed { (es : List Equation) (m : Map) → AreFormed es → mgu es ≡ Some m → IsFormedMap (fin.get m) }
{}

/// None is found exactly where no map is a unifier.
pub fn no_unifier()
    ensures { (es : List Equation) → (mgu es ≡ None) ↔ ((h : Variable → Option Term) → Unifies h es → ⊥) }
{}

/// Unification goes on by the first difference of the sides: where a variable is replaced, it is one of the equations and stands in them no
/// longer, and no further variables come in. Any bound above the number of variables gives the same.
pub fn steps()
    ensures difference { (es : List Equation) → mgu es ≡ by_difference mgu es (first_difference es) }
    ensures variable { (es : List Equation) (x : Variable) (s : Term) → first_difference es ≡ differs x s → is_free_in_equations x es ≡ true }
    ensures others { (es : List Equation) (x : Variable) (s : Term) → first_difference es ≡ differs x s → is_free_in_term x s ≡ false → (v : Variable) → is_free_in_equations v (replaced x s es) ≡ true → (eq_by_cmp var_cmp v x ≡ false) × (is_free_in_equations v es ≡ true) }
    ensures any_bound { (n : ℕ) (es : List Equation) → length (variables_of es) < n → mgu es ≡ mgu_within n es }
{}

/// What one equation says of a map that solves it. So equations may be solved in another order, a variable or the arguments of a symbol at
/// a time.
pub fn single_equations()
    ensures arguments { (h : Variable → Option Term) (f : Symbol) (ts us : Terms) → (image_term h (app f ts) ≡ image_term h (app f us)) ↔ (image_terms h ts ≡ image_terms h us) }
    ensures first_and_rest { (h : Variable → Option Term) (t u : Term) (ts us : Terms) → (image_terms h (cons t ts) ≡ image_terms h (cons u us)) ↔ ((image_term h t ≡ image_term h u) × (image_terms h ts ≡ image_terms h us)) }
    ensures lengths { (h : Variable → Option Term) (t : Term) (ts : Terms) → image_terms h nil ≢ image_terms h (cons t ts) }
    ensures symbols { (h : Variable → Option Term) (f g : Symbol) (ts us : Terms) → f ≢ g → image_term h (app f ts) ≢ image_term h (app g us) }
    ensures kinds { (h : Variable → Option Term) (i : ℕ) (f : Symbol) (ts : Terms) → image_term h (bound i) ≢ image_term h (app f ts) }
    ensures indices { (h : Variable → Option Term) (i j : ℕ) → i ≢ j → image_term h (bound i) ≢ image_term h (bound j) }
    ensures variable { (h : Variable → Option Term) (x : Variable) (s : Term) → (image_term h (free x) ≡ image_term h s) ↔ ((t : Term) → image_term h (put_for x s t) ≡ image_term h t) }
    ensures replaced { (h : Variable → Option Term) (x : Variable) (s : Term) → image_term h (free x) ≡ image_term h s → (es : List Equation) → Unifies h es ↔ Unifies h (replaced x s es) }
    ensures proper_part { (h : Variable → Option Term) (x : Variable) (s : Term) → s ≢ free x → is_free_in_term x s ≡ true → image_term h (free x) ≢ image_term h s }
{}

/// Matching finds a map under which the patterns become the terms, with terms for the variables of the patterns alone. Each map that does so
/// does what this one says of these variables, and none is found exactly where there is no such map. Its terms are well formed where those
/// are that are matched.
pub fn matchers()
    ensures matches { (ts us : List Term) (m : Map) → match_onto ts us ≡ Some m → map (image_term (fin.get m)) ts ≡ us }
    ensures all { (ts us : List Term) (m : Map) → match_onto ts us ≡ Some m → (h : Variable → Option Term) → (map (image_term h) ts ≡ us) ↔ IsWithin m h }
    ensures variables { (ts us : List Term) (m : Map) → match_onto ts us ≡ Some m → (v : Variable) → is_some (fin.get m v) ≡ list_any (is_free_in_term v) ts }
    ensures formed { (ts us : List Term) (m : Map) → All IsFormedTerm us → match_onto ts us ≡ Some m → IsFormedMap (fin.get m) }
    ensures none { (ts us : List Term) → (match_onto ts us ≡ None) ↔ ((h : Variable → Option Term) → map (image_term h) ts ≢ us) }
{}
