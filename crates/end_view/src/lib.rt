//! What the layers above a shared page see of its two ends: each end's lists and what it has noted, with no
//! word of the page and no event, and what holds of a page after both are done.
//!
//! The shared page, whose contracts use these views, rests on it, and so does every crate above. The views
//! are this project's own, over the protocol of Xen's libxenvchan.
#![tactic(auto)]

ghost use Rattle.end_view.specs.AfterCall.{EachViewAfterCall};
ghost use Rattle.end_view.specs.Settled.{SettlesViews};

/// A whole call of an honest end changes its view as the call's answer tells, whatever its peer
/// stores.
pub fn each_view_after_call()
    ensures { EachViewAfterCall }
{}

/// What the protocol settles of two ends that are done with their page is what a settled page promises of
/// their views.
pub fn settles_views()
    ensures { SettlesViews }
{}
