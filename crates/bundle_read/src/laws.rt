// Laws about bundles.

ghost use Rattle.bundle_read.specs.Laws.{BundlesAreBounded, BundlesAreShort, NamesDiffer};

/// What holds of every bundle that is read from bytes: it has at most 1,000 tenants, no two of one name; no tenant has more
/// than 1,000,000 users or 10,000 sessions, and no session more than 10,000 requests.
pub fn laws_of_bundles()
    ensures bounds { BundlesAreBounded }
    ensures short { BundlesAreShort }
    ensures names { NamesDiffer }
{}
