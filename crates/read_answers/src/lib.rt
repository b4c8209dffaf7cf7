// What reading a script back answers in eleven numbers, as C takes it.
#![tactic(auto)]

ghost use Rattle.std.specs.Prelude.{◌≡◌};
ghost use Rattle.echo_spec.specs.Input.{Problem};
ghost use Rattle.script_reader.specs.Outputs.{read_back};
ghost use Rattle.read_answers.specs.Answered.{read_numbers};

use script_reader::{ReadError, Sizes};

// Number 0: the script is read, and so many elements of each output are used, the columns of a table told once. Any other number: a refusal,
// and all others are 0.
#[repr(C)]
#[derive(Clone, Copy, Debug, Default, PartialEq, Eq)]
pub struct ReadAnswer {
    pub number: u64,
    pub nodes: u64,
    pub bits: u64,
    pub side: u64,
    pub roots: u64,
    pub names: u64,
    pub variables: u64,
    pub anames: u64,
    pub arrays: u64,
    pub fnames: u64,
    pub functions: u64,
}

// The struct says what `read_script` answered, whatever the outputs became. Ruled out: the numbers of `Limit` and `NoScript` the other way about; a refusal with sizes; the bits told as the side entries.
impl From<Result<Sizes, ReadError>> for ReadAnswer {
    ghost from_gives = { λ r a. (outputs : Problem) → read_numbers a outputs ≡ read_back r outputs };

    fn from(r: Result<Sizes, ReadError>) -> ReadAnswer {
        match r {
            Ok(z) => ReadAnswer {
                number: 0,
                nodes: z.nodes as u64,
                bits: z.bits as u64,
                side: z.side as u64,
                roots: z.roots as u64,
                names: z.names as u64,
                variables: z.variables as u64,
                anames: z.anames as u64,
                arrays: z.arrays as u64,
                fnames: z.fnames as u64,
                functions: z.functions as u64,
            },
            Err(e) => ReadAnswer {
                number: u64::from(e),
                ..ReadAnswer::default()
            },
        }
    }
}
