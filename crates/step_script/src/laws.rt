//! Laws of scripts. A law is a function with no body, whose contract states it.
ghost use Rattle.step_script.specs.Meaning.ListScript.{WholeScriptsFollowLists};

/// In a script whose lines after the opening are whole calls, `head` and `image`, the lists of what
/// was sent and got determine every output line except those of `head`, `image` and `event`, and
/// those of calls that an end can't make: which answer each call gives, which bytes it takes, and
/// how many bytes went through each ring.
pub fn whole_scripts_follow_lists()
    ensures { WholeScriptsFollowLists }
{}
