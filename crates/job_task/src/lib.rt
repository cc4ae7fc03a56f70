// What a job is handed, and the rows of the table of refusals that it meets before its search: 1, 2,
// 4, 19, 5, 14, 7, 8, 13, 3, 15, 17, in the table's order (docs/RULES.md, 'Job', 'When a call says no'); a
// job that elects takes no type and always trims, so it has no 15, and form 2 holds every class, so 13 is
// of a run in form 1. In go the settings, the form of the blocks, how long planes and lent buffers are, and
// the lists that are looked into; out comes the first row that holds. The rows are judged in groups; a
// group is a function.
#![tactic(auto)]

ghost use Rattle.std.specs.Prelude.{◌≡◌, ◌*◌, ◌≤◌, ◌<◌, length, ltb};
ghost use Rattle.laws.specs.Refusal.{judge};
ghost use Rattle.plane.specs.Inner.{Small};
ghost use Rattle.class_set.specs.Set.{named_count};
ghost use Rattle.fit.specs.Fitted.{no_type};
ghost use Rattle.refusal.specs.Number.{refusal_number};
ghost use Rattle.job_task.specs.Rows.{wrong_lengths, wrong_others, elects, not_held, unless_elects, bad_codes, no_reference, too_little, too_few_to_trim, size_rows, code_rows, model_rows, room_rows, refusal_before};

use class::LAST_CLASS;
use header::MOST_BYTES;
use layout::BLOCK_BYTES;
use models::NUMBERS;
use refusal::Refusal;

const BLOCK: usize = 16;

// Six models beside the job's own.
pub const OTHERS: usize = 6;

pub const OTHER_NUMBERS: usize = 36;

const LAST_TYPE: u8 = 3;

const LAST_REFERENCE: u8 = 7;

// The frame number of the blocks, the type to fit, the reference that the model is for, the flag of
// high precision, whether the job trims (1, otherwise 0), whether it elects (1, otherwise 0: the type
// and the trim above aren't looked at where it does), the set of the classes whose samples the model is
// made from (class c is bit c; 31: all of them), and the bit of the header's first byte at which writing
// begins.
#[repr(C)]
#[derive(Clone, Copy, Debug, PartialEq, Eq)]
pub struct Settings {
    pub frame: u16,
    pub gm_type: u8,
    pub reference: u8,
    pub flag: u8,
    pub trim: u8,
    pub elect: u8,
    pub set: u8,
    pub start: usize,
}

// The sides of the planes, and how long planes and lent buffers are.
#[derive(Clone, Copy, Debug, PartialEq, Eq)]
pub struct Sizes {
    pub width: usize,
    pub height: usize,
    pub input: usize,
    pub reference: usize,
    pub input_half: usize,
    pub ref_half: usize,
    pub words: usize,
    pub blocks: usize,
    pub header: usize,
}

// What every job is handed beside its frame pair or its words: the settings, the form of its blocks, a
// class for each sample, the six other types and their 36 numbers, and the prior.
#[derive(Clone, Copy)]
pub struct Handed<'a> {
    pub settings: Settings,
    pub form: u32,
    pub classes: &'a [u8],
    pub types: &'a [u8],
    pub models: &'a [i32],
    pub prior: &'a [i32],
}

// A frame pair: two planes, and their sides.
#[derive(Clone, Copy)]
pub struct Pair<'a> {
    pub input: &'a [u16],
    pub reference: &'a [u16],
    pub width: usize,
    pub height: usize,
}

impl Settings {
    pub fn elects(self) -> bool
        ensures { result ≡ elects self }
    {
        self.elect == 1
    }

    fn bad_type(self) -> bool
        ensures { result ≡ unless_elects self (no_type self.gm_type) }
    {
        !self.elects() && !(1..=LAST_TYPE).contains(&self.gm_type)
    }

    fn bad_trim(self) -> bool
        ensures { result ≡ unless_elects self (ltb 1 self.trim) }
    {
        !self.elects() && 1 < self.trim
    }

    fn no_reference(self) -> bool
        ensures { result ≡ no_reference self.reference }
    {
        !(1..=LAST_REFERENCE).contains(&self.reference)
    }
}

impl Handed<'_> {
    // Not six types, not 36 numbers of theirs, or not the prior's 42.
    pub fn wrong_others(self) -> bool
        ensures { result ≡ wrong_others (length self.entry.types.now) (length self.entry.models.now) (length self.entry.prior.now) }
    {
        self.types.len() != OTHERS
            || self.models.len() != OTHER_NUMBERS
            || self.prior.len() != NUMBERS
    }

    fn wrong_lengths(self, sizes: Sizes) -> bool
        requires { Small sizes.width sizes.height }
        ensures { result ≡ wrong_lengths sizes (length self.entry.classes.now) (length self.entry.types.now) (length self.entry.models.now) (length self.entry.prior.now) }
    {
        search::refusals::wrong_length(
            sizes.width,
            sizes.height,
            sizes.input,
            sizes.reference,
            self.classes.len(),
        ) || self.wrong_others()
    }

    fn bad_codes(self) -> bool
        ensures { result ≡ bad_codes self.entry.settings self.entry.form self.entry.classes.now self.entry.types.now }
    {
        class::some_over(LAST_CLASS, self.classes)
            || self.settings.bad_type()
            || models::types_over(self.types)
            || 1 < self.settings.flag
            || self.settings.bad_trim()
            || 1 < self.settings.elect
            || class_set::names_over(self.settings.set)
            || forms::no_form(self.form)
    }

    fn too_little(self, sizes: Sizes) -> bool
        requires { Small sizes.width sizes.height }
        ensures { result ≡ too_little sizes self.entry.form }
    {
        let samples = sizes.height / BLOCK * (sizes.width / BLOCK);
        search::refusals::too_short(
            sizes.width,
            sizes.height,
            sizes.input_half,
            sizes.ref_half,
            sizes.words,
        ) || sizes.blocks < BLOCK_BYTES * forms::blocks_of(self.form, samples)
            || sizes.header < MOST_BYTES
    }

    // A class that the form can't hold.
    pub fn not_held(self) -> bool
        ensures { result ≡ not_held self.entry.form self.entry.classes.now }
    {
        class::some_over(forms::last_class(self.form), self.classes)
    }

    // Of the classes' samples those count that the set names.
    pub fn too_few_to_trim(self) -> bool
        ensures { result ≡ too_few_to_trim self.entry.settings (named_count self.entry.settings.set self.entry.classes.now) }
    {
        !self.settings.elects()
            && self.settings.trim == 1
            && class_set::count_named(self.settings.set, self.classes)
                < trim::least_of(self.settings.gm_type)
    }

    fn sizes_refusal(self, sizes: Sizes) -> Result<(), Refusal>
        ensures { refusal_number result ≡ judge (size_rows sizes (length self.entry.classes.now) (length self.entry.types.now) (length self.entry.models.now) (length self.entry.prior.now)) }
    {
        if search::refusals::too_large(sizes.width, sizes.height) {
            return Err(Refusal::TooLarge);
        }
        if self.wrong_lengths(sizes) {
            return Err(Refusal::WrongLength);
        }
        Ok(())
    }

    pub fn codes_refusal(self) -> Result<(), Refusal>
        ensures { refusal_number result ≡ judge (code_rows self.entry.settings self.entry.form self.entry.classes.now self.entry.types.now) }
    {
        if self.bad_codes() {
            return Err(Refusal::NoSuchCode);
        }
        if self.settings.set == 0 {
            return Err(Refusal::NoClass);
        }
        if self.settings.no_reference() {
            return Err(Refusal::NotThere);
        }
        if models::start_over(self.settings.start) {
            return Err(Refusal::StartOver);
        }
        Ok(())
    }

    // The models, the prior, and the classes against the form.
    fn models_refusal(self) -> Result<(), Refusal>
        requires { 6 * length self.types.now ≤ length self.models.now }
        ensures { refusal_number result ≡ judge (model_rows self.entry.settings self.entry.form self.entry.classes.now self.entry.types.now self.entry.models.now self.entry.prior.now) }
    {
        if models::models_wrong(self.types, self.settings.flag, self.models) {
            return Err(Refusal::ModelWrong);
        }
        if models::priors_out(self.prior) {
            return Err(Refusal::PriorOut);
        }
        if self.not_held() {
            return Err(Refusal::ClassNotHeld);
        }
        Ok(())
    }

    fn room_refusal(self, sizes: Sizes) -> Result<(), Refusal>
        requires { Small sizes.width sizes.height }
        ensures { refusal_number result ≡ judge (room_rows sizes self.entry.settings self.entry.form self.entry.classes.now) }
    {
        if self.too_little(sizes) {
            return Err(Refusal::TooShort);
        }
        if self.too_few_to_trim() {
            return Err(Refusal::TooFew);
        }
        Ok(())
    }

    pub fn refusal_of(self, sizes: Sizes) -> Result<(), Refusal>
        ensures { refusal_number result ≡ refusal_before sizes self.entry.settings self.entry.form self.entry.classes.now self.entry.types.now self.entry.models.now self.entry.prior.now }
    {
        self.sizes_refusal(sizes)?;
        self.codes_refusal()?;
        self.models_refusal()?;
        self.room_refusal(sizes)?;
        frame_number::refusal_of(self.settings.frame)
    }
}
