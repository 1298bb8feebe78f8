// One entry of the cosine table, at any index.
#![tactic(auto)]

ghost use Rattle.std.specs.Prelude.{◌≡◌};
ghost use Rattle.tables.specs.Table.{cos_at};

// Entry k; past the end +0.
#[tactic(auto, using(tables::proofs::Rules::past_end))]
pub fn cos_f32(k: usize) -> f32
    ensures { result ≡ cos_at k }
{
    if k > 4096 {
        return 0.0;
    }
    tables::entry(k)
}
