//! Resolutions.
ghost use Rattle.std.specs.Prelude.{◌≡◌};
ghost use Rattle.mtn_resolve.specs.Subjects.{AreApart, node_of};

use mtn_base::NodeName;
use mtn_resolve::{Resolution, Resolutions};

/// As `Resolution::node`.
pub fn node(one: &Resolution) -> &NodeName
    ensures { result.now ≡ node_of one.now }
{
    one.node()
}

/// As `Resolutions::new`.
pub fn new_resolutions(items: Vec<Resolution>) -> Resolutions
    requires { AreApart items.items }
    ensures { result ≡ items.items }
{
    Resolutions::new(items)
}

/// As `Resolutions::items`.
pub fn items(resolutions: &Resolutions) -> &[Resolution]
    ensures items { result.now ≡ resolutions.now }
    ensures apart { AreApart resolutions.now }
{
    resolutions.items()
}
