ghost use Rattle.std.specs.Prelude.{◌≡◌};
ghost use Rattle.ix_host.specs.run.Inputs.{reads_image};

use ix_label::Label;

/// What the command words ask for.
#[derive(Clone, Copy)]
pub enum Command {
    /// The report of a script.
    Run,
    /// The canonical text of a script.
    Print,
    /// The summary of a made session with so many commands.
    Gen(u32),
    /// Whether a text is the report of a script.
    Check,
    /// Where each byte came from that a script's processes read.
    Flow,
    /// The image of the tree of files that a script's run leaves.
    Save,
    /// The list of the tree of files that bytes are the image of.
    Load,
    /// Two scripts, compared at a label.
    Twin(Label),
}

impl Command {
    /// Whether it reads an image, and no script.
    pub fn reads_image(&self) -> bool
        ensures { result ≡ reads_image self.now }
    {
        match self {
            Command::Run => false,
            Command::Print => false,
            Command::Gen(_) => false,
            Command::Check => false,
            Command::Flow => false,
            Command::Save => false,
            Command::Load => true,
            Command::Twin(_) => false,
        }
    }
}
