// Texts as tokens, the numbers that tokens spell, and the places where they stand.
mod numbers;
mod places;
mod spellings;
