// The rows of masks of a table, from the 9,092 bytes where they lie.
#![tactic(auto)]

ghost use Rattle.std.specs.Prelude.{◌≡◌, ℕ, ◌≤◌, get_or};
ghost use Rattle.mask.specs.Mask.{has};
ghost use Rattle.little.specs.Little.{byte_at};
ghost use Rattle.table.specs.Table.{precedes_of, goes_before};
ghost use Rattle.table.specs.TableInner.{watches_of};
ghost use Rattle.table.specs.Memory.{table_from};

// The row of the rules' watch masks. This and the next are one function, column: which mask stands where is what their contracts say.
pub fn watches(table: &[u8; 9092]) -> [u32; 32]
    requires { byte_at table.now 1 ≤ 32 }
    ensures { result ≡ watches_of (table_from table.now) }
{
    rule_read::column(table, 4, 284, usize::from(table[1]))
}

// The row of the rules' precedes masks.
pub fn precedes(table: &[u8; 9092]) -> [u32; 32]
    requires { byte_at table.now 1 ≤ 32 }
    ensures { result ≡ precedes_of (table_from table.now) }
{
    rule_read::column(table, 8, 284, usize::from(table[1]))
}

// Mask r of the result: the rules that r goes before.
pub fn goes_before(table: &[u8; 9092]) -> [u32; 32]
    requires { byte_at table.now 1 ≤ 32 }
    ensures { (r x : ℕ) → has (get_or result r 0) x ≡ goes_before (table_from table.now) r x }
{
    graph::closure(precedes(table), usize::from(table[1]))
}
