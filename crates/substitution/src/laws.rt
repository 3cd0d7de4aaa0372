//! The laws of substitution. Each function does nothing: its contract is the law.
ghost use Rattle.std.specs.Prelude.{◌≡◌, ℕ, ◌+◌, ◌^◌, ◌<◌, true, false, not, ◌||◌, ◌&&◌, ◌≤◌, Option, None, IfSome, option_map};
ghost use Rattle.std.specs.FinMap as fin;
ghost use Rattle.std.specs.Ordering.{eq_by_cmp};
ghost use Rattle.fol.specs.declared.symbols.Var.{Var as Variable};
ghost use Rattle.fol.specs.Syntax.{Term, Formula, free};
ghost use Rattle.fol.specs.Order.{var_cmp};
ghost use Rattle.fol.specs.Formed.{is_formed_at, is_formed_term_at, IsFormedTerm, IsFormed};
ghost use Rattle.fol.specs.Facts.{has_body};
ghost use Rattle.free_variables.specs.Grade.{grade_of};
ghost use Rattle.free_variables.specs.Occurrence.{is_free_in, is_free_in_term, pred_list};
ghost use Rattle.substitution.specs.Closed.{is_closed_at, is_closed_term_at, IsClosedTerm, IsClosedMap};
ghost use Rattle.substitution.specs.Image.{image, image_term, after, IsFormedMap};
ghost use Rattle.substitution.specs.Instance.{inst_at, inst, bind_at, nesting};
ghost use Rattle.substitution.specs.Maps.{Map, only};
ghost use Rattle.substitution.specs.Unfolding.{unf};

/// The image of an instance is the instance of the image, where the terms of the map have no index.
pub fn image_of_instance()
    ensures { (m : Variable → Option Term) → IsClosedMap m → (u : Term) (f : Formula) (k : ℕ) → image m (inst_at u k f) ≡ inst_at (image_term m u) k (image m f) }
{}

/// The image of an image is the image under both maps in a row.
pub fn image_of_image()
    ensures formula { (g h : Variable → Option Term) (f : Formula) → image h (image g f) ≡ image (after g h) f }
    ensures term { (g h : Variable → Option Term) (t : Term) → image_term h (image_term g t) ≡ image_term (after g h) t }
{}

/// Maps that agree on the free variables of a formula have one image of it.
pub fn agreeing_maps()
    ensures { (g h : Variable → Option Term) (f : Formula) → ((v : Variable) → is_free_in v f ≡ true → image_term g (free v) ≡ image_term h (free v)) → image g f ≡ image h f }
{}

/// A map that has none of the free variables changes nothing: so it is with the empty map.
pub fn untouched_formula()
    ensures none_free { (m : Variable → Option Term) (f : Formula) → ((v : Variable) → is_free_in v f ≡ true → m v ≡ None) → image m f ≡ f }
    ensures empty { (f : Formula) → image (fin.get {R = var_cmp} fin.empty) f ≡ f }
{}

/// A binding of a variable that isn't free in the formula changes nothing.
pub fn needless_binding()
    ensures { (m : Map) (y : Variable) (u : Term) (f : Formula) → is_free_in y f ≡ false → image (fin.get (fin.insert m y u)) f ≡ image (fin.get m) f }
{}

/// An instance of a formula with a variable bound is the formula with the term for the variable, and the instance by the variable is the
/// formula itself. The formula has no index of a quantifier outside.
pub fn instance_of_bound()
    ensures other_term { (u : Term) (f : Formula) (v : Variable) (k : ℕ) → is_closed_at k f ≡ true → inst_at u k (bind_at v k f) ≡ image (fin.get (only v u)) f }
    ensures same_variable { (f : Formula) (v : Variable) (k : ℕ) → is_closed_at k f ≡ true → inst_at (free v) k (bind_at v k f) ≡ f }
{}

/// Binding a variable undoes the instance by it, where it isn't free in the body.
pub fn bound_instance()
    ensures { (v : Variable) (f : Formula) (k : ℕ) → is_free_in v f ≡ false → bind_at v k (inst_at (free v) k f) ≡ f }
{}

/// Putting a term for a variable in the instance by that variable gives the instance by the term, where the variable isn't free in the body.
pub fn renamed_instance()
    ensures { (v : Variable) (u : Term) (f : Formula) → IsClosedTerm u → is_free_in v f ≡ false → image (fin.get (only v u)) (inst f (free v)) ≡ inst f u }
{}

/// A variable that is free in the body is free in each instance, and one that is free in an instance is so in the body or the term.
pub fn free_in_instance()
    ensures kept { (v : Variable) (u : Term) (f : Formula) (k : ℕ) → is_free_in v f ≡ true → is_free_in v (inst_at u k f) ≡ true }
    ensures origin { (v : Variable) (u : Term) (f : Formula) (k : ℕ) → is_free_in v (inst_at u k f) ≡ true → (is_free_in v f || is_free_in_term v u) ≡ true }
{}

/// What is free in an image is what is free in the images of the free variables.
pub fn free_in_image()
    ensures origin { (v : Variable) (m : Variable → Option Term) (f : Formula) → is_free_in v (image m f) ≡ true → (w : Variable) × ((is_free_in w f ≡ true) × (is_free_in_term v (image_term m (free w)) ≡ true)) }
    ensures kept { (v w : Variable) (m : Variable → Option Term) (f : Formula) → is_free_in w f ≡ true → is_free_in_term v (image_term m (free w)) ≡ true → is_free_in v (image m f) ≡ true }
{}

/// Binding a variable leaves the other free variables.
pub fn free_in_bound()
    ensures { (w v : Variable) (f : Formula) (k : ℕ) → is_free_in w (bind_at v k f) ≡ (is_free_in w f && not (eq_by_cmp var_cmp w v)) }
{}

/// Instances by well-formed terms, images under maps of well-formed terms, and formulas with a variable bound are well formed.
pub fn well_formed_results()
    ensures instance { (u : Term) (f : Formula) (k : ℕ) → IsFormedTerm u → is_formed_at (k + 1) f ≡ true → is_formed_at k (inst_at u k f) ≡ true }
    ensures image { (m : Variable → Option Term) (f : Formula) (k : ℕ) → IsFormedMap m → is_formed_at k f ≡ true → is_formed_at k (image m f) ≡ true }
    ensures image_term { (m : Variable → Option Term) (t : Term) (k : ℕ) → IsFormedMap m → is_formed_term_at k t ≡ true → is_formed_term_at k (image_term m t) ≡ true }
    ensures bound { (v : Variable) (f : Formula) (k : ℕ) → k + nesting f < 2 ^ 32 → is_formed_at k f ≡ true → is_formed_at (k + 1) (bind_at v k f) ≡ true }
{}

/// A map of well-formed terms stays one with one more such term, and its terms have no index.
pub fn well_formed_maps()
    ensures empty { IsFormedMap (fin.get {R = var_cmp} fin.empty) }
    ensures insert { (m : Map) (y : Variable) (u : Term) → IsFormedMap (fin.get m) → IsFormedTerm u → IsFormedMap (fin.get (fin.insert m y u)) }
    ensures closed { (m : Variable → Option Term) → IsFormedMap m → IsClosedMap m }
{}

/// Well-formed values have no index of a quantifier outside.
pub fn well_formed_is_closed()
    ensures formula { (f : Formula) (k : ℕ) → is_formed_at k f ≡ true → is_closed_at k f ≡ true }
    ensures term { (t : Term) (k : ℕ) → is_formed_term_at k t ≡ true → is_closed_term_at k t ≡ true }
{}

/// Instances, images and binding keep the grade.
pub fn same_grade()
    ensures instance { (u : Term) (f : Formula) (k : ℕ) → grade_of (inst_at u k f) ≡ grade_of f }
    ensures image { (m : Variable → Option Term) (f : Formula) → grade_of (image m f) ≡ grade_of f }
    ensures bound { (v : Variable) (f : Formula) (k : ℕ) → grade_of (bind_at v k f) ≡ grade_of f }
{}

/// Instances, images and binding keep the predicate symbols.
pub fn same_predicates()
    ensures instance { (u : Term) (f : Formula) (k : ℕ) → pred_list (inst_at u k f) ≡ pred_list f }
    ensures image { (m : Variable → Option Term) (f : Formula) → pred_list (image m f) ≡ pred_list f }
    ensures bound { (v : Variable) (f : Formula) (k : ℕ) → pred_list (bind_at v k f) ≡ pred_list f }
{}

/// Instances, images and binding keep whether the predicate symbol of some atom has a body.
pub fn same_bodies()
    ensures instance { (u : Term) (f : Formula) (k : ℕ) → has_body (inst_at u k f) ≡ has_body f }
    ensures image { (m : Variable → Option Term) (f : Formula) → has_body (image m f) ≡ has_body f }
    ensures bound { (v : Variable) (f : Formula) (k : ℕ) → has_body (bind_at v k f) ≡ has_body f }
{}

/// The unfolding of a well-formed atom is well formed, of smaller grade, and has no free variable but those of the atom.
pub fn unfoldings()
    ensures formed { (f : Formula) → IsFormed f → IfSome (unf f) IsFormed }
    ensures grade { (f : Formula) → IfSome (unf f) (λ g. grade_of g + 1 ≤ grade_of f) }
    ensures free { (v : Variable) (f : Formula) (k : ℕ) → is_formed_at k f ≡ true → IfSome (unf f) (λ g. is_free_in v g ≡ true → is_free_in v f ≡ true) }
{}

/// The unfolding of an image is the image of the unfolding. Neither a well-formed atom nor its unfolding has an index that an instance
/// replaces.
pub fn unfolding_of_image()
    ensures image { (m : Variable → Option Term) (f : Formula) (k : ℕ) → is_formed_at k f ≡ true → unf (image m f) ≡ option_map (image m) (unf f) }
    ensures instance { (u : Term) (k : ℕ) (f : Formula) → IsFormed f → unf (inst_at u k f) ≡ option_map (inst_at u k) (unf f) }
{}
