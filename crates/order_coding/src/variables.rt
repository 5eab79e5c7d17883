ghost use Rattle.std.specs.Prelude.{◌≡◌, ◌≢◌, ◌<◌, ◌≤◌};
ghost use Rattle.clause_store.specs.Clauses.{InVars};
ghost use Rattle.order_coding.specs.Variables.{IsNumber, order_vars, pair_var, before_lit};

use clause_store::Lit;

/// The variable that says of event `e` that it is in: that it stands before the cut. Events are numbered from 1.
pub fn in_var(e: u32) -> u32
    ensures { result ≡ e }
{
    e
}

/// The literal that says that event `a` stands before event `b`, of `n` events numbered from 1.
pub fn before_lit(n: u32, a: u32, b: u32) -> Lit
    requires few { n ≤ 128 }
    requires first { IsNumber n a }
    requires second { IsNumber n b }
    requires apart { a ≢ b }
    ensures literal { result ≡ before_lit n a b }
    ensures named { InVars (order_vars n) result }
{
    if a < b {
        Lit {
            var: pair_var(n, a, b),
            positive: true,
        }
    } else {
        Lit {
            var: pair_var(n, b, a),
            positive: false,
        }
    }
}

// The variable of the events a < b.
fn pair_var(n: u32, a: u32, b: u32) -> u32
    requires few { n ≤ 128 }
    requires first { 1 ≤ a }
    requires ascending { a < b }
    requires second { b ≤ n }
    ensures number { result ≡ pair_var n a b }
    ensures there { (1 ≤ result) × (result ≤ order_vars n) }
{
    n + (a - 1) * (2 * n - a) / 2 + (b - a)
}

/// How many variables `n` events have.
pub(crate) fn order_vars(n: u32) -> u32
    requires { n ≤ 128 }
    ensures { result ≡ order_vars n }
{
    if n == 0 { 0 } else { n + n * (n - 1) / 2 }
}
