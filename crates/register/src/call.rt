// A call on a register, as a value: so that a list of them can be played.
#[derive(Clone, Copy)]
pub enum Call<'a> {
    Post,
    Open {
        dates: &'a [u32],
        rate: u64,
        holdings: &'a [u64],
    },
    Advance {
        day: u32,
    },
    Transfer {
        from: u64,
        to: u64,
        amount: u64,
    },
    Redeem {
        holder: u64,
        amount: u64,
    },
    Pay {
        holder: u64,
    },
}
