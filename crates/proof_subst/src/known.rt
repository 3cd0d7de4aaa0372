//! The law of the table of images: which reference is the image of which proof under which map.
ghost use Rattle.std.specs.Prelude.{◌≡◌, IfOk, refl};
ghost use Rattle.std.specs.Ordering.{eq_by_cmp, as_partial_cmp};
ghost use Rattle.std.specs.Cmp.{partial_equiv_from_equiv, partial_order_from_total};
ghost use Rattle.std.proofs.lemmas.Cmp.{eq_by_cmp_equiv};
ghost use Rattle.proof_subst.specs.ImageKeys.{image_key_cmp, image_key_total};

use memo_table::Law;
use proof_graph::{Graph, ProofRef};
use std::alloc::{AllocError, Global};
use std::cmp::Ordering;
use substitution::Subst;

/// What is looked up: the number of a proof, and a map.
#[derive(Drop)]
pub struct ImageKey {
    pub proof: u64,
    pub map: Subst,
}

impl PartialEq for ImageKey {
    ghost eq = { eq_by_cmp image_key_cmp };

    ghost laws = { partial_equiv_from_equiv (eq_by_cmp_equiv image_key_total) };

    fn eq(&self, other: &ImageKey) -> bool {
        self.cmp(other).is_eq()
    }
}

impl Eq for ImageKey {
    ghost laws = { eq_by_cmp_equiv image_key_total };
}

impl PartialOrd for ImageKey {
    ghost partial_cmp = { as_partial_cmp image_key_cmp };

    ghost laws = { partial_order_from_total image_key_total };

    fn partial_cmp(&self, other: &ImageKey) -> Option<Ordering> {
        Some(self.cmp(other))
    }
}

/// By the number first, and then by the map.
impl Ord for ImageKey {
    ghost cmp = { image_key_cmp };

    ghost total = { image_key_total };

    ghost matches_partial_cmp = { λ x y. refl };

    ghost matches_eq = { λ x y. refl };

    fn cmp(&self, other: &ImageKey) -> Ordering {
        match self.proof.cmp(&other.proof) {
            Ordering::Equal => self.map.cmp(&other.map),
            apart => apart,
        }
    }
}

/// A proof, and its image under a map.
#[derive(Drop)]
pub struct Image {
    pub proof: ProofRef,
    pub image: ProofRef,
}

/// The law that a proof with the key's number has the image under the key's map.
pub struct Images;

impl Law for Images {
    ghost use Rattle.proof_subst.specs.Images.{IsImage, image_respects};

    type Key = ImageKey;

    type Val = Image;

    type Home = Graph;

    ghost Truth = { IsImage };

    fn copy(_alloc: Global, _home: &Graph, val: &Image) -> Result<Image, AllocError> {
        Ok(Image {
            proof: val.proof.keep()?,
            image: val.image.keep()?,
        })
    }

    ghost respects_cmp = { image_respects };
}
