ghost use Rattle.std.specs.Prelude.{◌≡◌, ◌<◌, ◌≤◌, length, take, drop, MatchResult};
ghost use Rattle.arrayvec.specs.ArrayVec.{array_vec_len};
ghost use Rattle.calls.specs.Buffers.{rows as rows_of_lem};
ghost use Rattle.graph.specs.declared.refusal.Refusal.TheVariants.{ShortBuffer};
ghost use Rattle.progress.specs.Holds.{paint};

use super::Progress;
use calls::row::Row;
use graph::Source;
use graph::refusal::Refusal;

impl Progress {
    /// Writes the block to the front of the buffer, and answers how many they are. Refuses a buffer that is too short.
    pub fn write_block(&self, out: &mut [u16]) -> Result<usize, Refusal>
        ensures { MatchResult result (λ n. (n ≡ array_vec_len self.now.block) × (n ≤ length out.new) × (take n out.new ≡ self.now.block.items) × (drop n out.new ≡ drop n out.old)) (λ e. (e ≡ ShortBuffer) × (length out.old < array_vec_len self.now.block) × (out.new ≡ out.old)) }
    {
        let n = self.block.len();
        if out.len() < n {
            return Err(Refusal::ShortBuffer);
        }
        out[..n].copy_from_slice(self.block.as_slice());
        Ok(n)
    }

    /// Writes one row for each number of the source to the front of the buffer. Refuses a buffer that is too short.
    pub fn write_plan<S: Source>(&self, source: &S, rows: &mut [Row]) -> Result<(), Refusal>
        ensures { MatchResult result (λ _. ((S.Source.graph source.now).size ≤ length rows.new) × (take (S.Source.graph source.now).size rows.new ≡ rows_of_lem (paint self.now.drives) (S.Source.graph source.now).size) × (drop (S.Source.graph source.now).size rows.new ≡ drop (S.Source.graph source.now).size rows.old)) (λ e. (e ≡ ShortBuffer) × (length rows.old < (S.Source.graph source.now).size) × (rows.new ≡ rows.old)) }
    {
        let n = source.size();
        if rows.len() < n {
            return Err(Refusal::ShortBuffer);
        }
        for (c, row) in rows[..n].iter_mut().enumerate() {
            *row = Row {
                cartridge: c as u16,
                drive: self.drives[c],
            };
        }
        Ok(())
    }
}
