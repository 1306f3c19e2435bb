//! Laws over the definitions of outcomes and trees.

ghost use Rattle.dts_tree.specs.Laws.{LastSettingCounts, OneOutcome, TreesAreTrees};

/// Each text has exactly one outcome, a tree or one first fault at one place.
pub fn one_outcome()
    ensures { OneOutcome }
{}

/// A property that is set has the value of its last setting.
pub fn last_setting_counts()
    ensures { LastSettingCounts }
{}

/// The root of a tree is there, each other node stands behind its parent, two children of one parent
/// differ in name, and a node has a property of a name once.
pub fn trees_are_trees()
    ensures { TreesAreTrees }
{}
