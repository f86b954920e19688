// One layer of the table of least distortions from the next: what the intervals' moves offer to every state of a line with two buckets.
// It knows neither a job nor its pins, only the line, the least distortion of each size and how distortions combine.

#![tactic(auto)]

ghost use Rattle.std.specs.Prelude.{◌≡◌, ◌++◌, ◌+◌, ◌≤◌, length, take, drop};
ghost use Rattle.model.specs.Table.{layer_words};
ghost use Rattle.planning.specs.Rule.{layer_from};
ghost use Rattle.decoder.specs.Answers.{combine, priced};
ghost use Rattle.sender.specs.Answers.{line_is, LineFits};

use decoder::Measure;
use sender::Line;

// Fills one interval's layer, which is the part's first, from the next, which follows it. Levels that are never reached from the start are filled too.
pub fn fill_layer(part: &mut [u32], line: Line, prices: &[u32; 256], measure: Measure)
    requires { LineFits line × (length prices.now ≡ 256) × (layer_words (line_is line) + layer_words (line_is line) ≤ length part.old) }
    ensures { part.new ≡ layer_from (combine measure) (line_is line) 256 (priced prices.now) (take (layer_words (line_is line)) (drop (layer_words (line_is line)) part.old)) ++ drop (layer_words (line_is line)) part.old }
{
    decoder::decode_layer(
        part,
        sender::layer_words(line),
        sender::row_words(line),
        prices,
        measure,
    );
    sender::send_layer(part, line);
}
