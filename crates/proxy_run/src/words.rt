// The words of the command line.
ghost use Rattle.std.specs.Prelude.{◌≡◌};
ghost use Rattle.std.specs.Option.{option_map};
ghost use Rattle.proxy_run.specs.Words.{texts, replay_words, serve_words};

/// The names of the files that a replay reads.
#[derive(Clone, Copy)]
pub struct ReplayNames<'a> {
    pub config: &'a str,
    pub recording: &'a str,
}

/// The replay that the words ask for: `replay <config> <recording>`.
pub fn replay_words(words: &[String]) -> Option<ReplayNames<'_>>
    ensures { option_map (λ names. record { config = names.config.now; recording = names.recording.now }) result ≡ replay_words (texts words.now) }
{
    match words {
        [command, config, recording] if command.as_str() == "replay" => Some(ReplayNames {
            config: config.as_str(),
            recording: recording.as_str(),
        }),
        _ => None,
    }
}

/// The name of the configuration to serve by: `serve <config>`.
pub fn serve_words(words: &[String]) -> Option<&str>
    ensures { option_map (λ name. name.now) result ≡ serve_words (texts words.now) }
{
    match words {
        [command, config] if command.as_str() == "serve" => Some(config.as_str()),
        _ => None,
    }
}
