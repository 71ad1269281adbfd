//! What holds of rows and their script.
ghost use Rattle.std.specs.Prelude.{◌≡◌, ◌↔◌, ◌≤◌, ℕ, List, length, flat_map};
ghost use Rattle.dali_access.specs.Index.Records.{below};
ghost use Rattle.dali_listing.specs.declared.Listed.{Listed};
ghost use Rattle.dali_script.specs.Scripts.{IsRightScript};
ghost use Rattle.dali_load.specs.Answers.{expected, verdict_of};
ghost use Rattle.dali_load.specs.Rows.{Spelled};
ghost use Rattle.dali_load.specs.Scripts.{group_at, groups, script_of};
ghost use Rattle.dali_load.specs.declared.judging.Verdict.TheVariants.{AllWell};

/// The groups, one after another, are the rows: none is left out, and none stands twice.
pub fn groups_have_each_row()
    ensures { (rows : List Listed) → flat_map (group_at rows) (below (groups (length rows))) ≡ rows }
{}

/// The script of rows that bytes spell is such as a script may be: it makes a database once, each command stands where it
/// may, and each number and value is in its range.
pub fn scripts_are_right()
    ensures { (bytes : List ℕ) (rows : List Listed) (index heap : ℕ) → Spelled bytes rows
        → 1 ≤ index → index ≤ 32768 → 1 ≤ heap → heap ≤ 65536 → IsRightScript (script_of index heap rows) }
{}

/// Bytes spell one list of rows at most.
pub fn one_reading()
    ensures { (bytes : List ℕ) (rows others : List Listed) → Spelled bytes rows → Spelled bytes others → rows ≡ others }
{}

/// The verdict is that all went well exactly where the lines are those that are said then.
pub fn all_well_is_told()
    ensures { (count : ℕ) (text : List ℕ) → verdict_of count text ≡ AllWell ↔ text ≡ expected count }
{}
