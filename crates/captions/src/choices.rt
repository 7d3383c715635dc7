//! What a script chooses for the calls that follow.
use card::Fault;
use stage::TableStage;
use units::Settings;

/// What says which elements are drawn, and along which flow.
#[derive(Drop)]
pub(crate) enum StageChoice {
    Every,
    Table(Vec<u8>),
    Language(Vec<u8>),
}

/// The settings and the stage that were chosen last.
#[derive(Drop)]
pub(crate) struct Choices {
    settings: Settings,
    stage: StageChoice,
}

impl StageChoice {
    // Refuses bytes that are no table; a language is asked of the card by the call that uses it.
    fn check(&self) -> Result<(), Fault> {
        match self {
            StageChoice::Every | StageChoice::Language(_) => Ok(()),
            StageChoice::Table(bytes) => {
                TableStage::new(bytes.as_slice())?;
                Ok(())
            }
        }
    }
}

impl Choices {
    /// What holds before a script chooses.
    pub(crate) fn new() -> Choices {
        Choices {
            settings: Settings {
                dpi: 96.0,
                size: 12.0,
                width: 100.0,
                height: 100.0,
                diagonal: 100.0,
            },
            stage: StageChoice::Every,
        }
    }

    /// Chooses settings; a call that uses them looks at their range.
    pub(crate) fn choose_settings(&mut self, settings: Settings) {
        self.settings = settings;
    }

    /// Chooses a stage, unless its table is wrong.
    pub(crate) fn choose_stage(&mut self, stage: StageChoice) -> Result<(), Fault> {
        stage.check()?;
        self.stage = stage;
        Ok(())
    }
}
