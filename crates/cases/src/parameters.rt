// What a plan's case gives: the parameters of the call, and the block table's words.
use load::counts::Counts;

#[derive(Clone, Copy, Debug, PartialEq, Eq)]
pub struct Parameters {
    pub limit: u64,
    pub counts: Counts,
    // The records of the flow table and the words of the row table that are lent.
    pub flow_records: usize,
    pub row_words: usize,
}

// Four words of 64 bits, and two of 32.
impl From<[u8; 40]> for Parameters {
    fn from(bytes: [u8; 40]) -> Parameters {
        let (words, _) = bytes.as_chunks::<8>();
        let (lent, _) = bytes[32..].as_chunks::<4>();
        Parameters {
            limit: u64::from_be_bytes(words[0]),
            counts: Counts {
                stages: usize::from_be_bytes(words[1]),
                flows: usize::from_be_bytes(words[2]),
                blocks: usize::from_be_bytes(words[3]),
            },
            flow_records: u32::from_be_bytes(lent[0]) as usize,
            row_words: u32::from_be_bytes(lent[1]) as usize,
        }
    }
}

// Takes the block table from the case's bytes, four for each word, as far as they go.
pub fn fill(table: &mut [u32], bytes: &[u8]) {
    let (words, _) = bytes.as_chunks::<4>();
    for (word, &bytes) in table.iter_mut().zip(words) {
        *word = u32::from_be_bytes(bytes);
    }
}
