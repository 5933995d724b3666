// What runjob lends: as much as document 01 says, with room for the words of any file. It is zeros before a job is opened.
// Pairs, as addresses and values, are two arrays: the machine's calls take them so.
ghost use Rattle.runjob.specs.SpaceView.{space_code, space_memory};
ghost use Rattle.runjob.specs.StartView.{Blank};

#[derive(Drop)]
pub struct Space {
    pub opcodes: [u64; 1024],
    pub arguments: [u64; 1024],
    pub public: [u64; 5461],
    pub secret: [u64; 5461],
    pub digests: [u64; 7445],
    pub op_stack: [u64; 4096],
    pub origins: [u64; 1024],
    pub destinations: [u64; 1024],
    pub addresses: [u64; 4096],
    pub values: [u64; 4096],
    pub output: [u64; 4096],
    // Where the steps of a piece write their log.
    pub log: [u8; 524288],
}

impl Space {
    pub fn new() -> Space
        ensures { Blank (space_code result) (space_memory result) }
    {
        Space {
            opcodes: [0; 1024],
            arguments: [0; 1024],
            public: [0; 5461],
            secret: [0; 5461],
            digests: [0; 7445],
            op_stack: [0; 4096],
            origins: [0; 1024],
            destinations: [0; 1024],
            addresses: [0; 4096],
            values: [0; 4096],
            output: [0; 4096],
            log: [0; 524288],
        }
    }
}
