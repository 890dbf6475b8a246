// Cells of a table.
ghost use Rattle.std.specs.Prelude.{◌+◌, ◌≤◌, length};
ghost use Rattle.image.specs.Tables.{Room, Raised};

// Adds `q` to the `n` cells from `at` on.
pub fn add_range(table: &mut [u32], at: usize, n: usize, q: u32)
    requires { (at + n ≤ length table.old) × Room table.old at q }
    ensures { Raised table.old table.new at n q }
{
    for cell in &mut table[at..at + n] {
        *cell += q;
    }
}
